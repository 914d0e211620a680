ghost use Rattle.std.specs.Prelude.{◌≡◌, IfOk, IfSome};

use crate::slot::{empty_slots, slot_of};
use lv_base::{NoMemory, Text};
use std::alloc::Global;

/// Texts that came lately: one that comes again is shared. A text has one slot, and takes it from the text that had it.
#[derive(Drop)]
pub struct SharedTexts {
    slots: Vec<Option<Text>>,
}

impl SharedTexts {
    /// Without a text.
    pub fn new(alloc: Global) -> Result<Self, NoMemory> {
        let slots = empty_slots(alloc)?;
        Ok(SharedTexts { slots })
    }

    /// The text of these characters.
    pub fn text(&mut self, alloc: Global, characters: &str) -> Result<Text, NoMemory>
        ensures { IfOk result (λ text. text ≡ characters.now) }
    {
        match self.find(characters) {
            Some(text) => Ok(text.clone()?),
            None => self.made(alloc, characters),
        }
    }

    fn find(&self, characters: &str) -> Option<&Text>
        ensures { IfSome result (λ text. text.now ≡ characters.now) }
    {
        let text = self.slots.get(slot_of(characters))?.as_ref()?;
        if text.as_str() == characters {
            Some(text)
        } else {
            None
        }
    }

    fn made(&mut self, alloc: Global, characters: &str) -> Result<Text, NoMemory>
        ensures { IfOk result (λ text. text ≡ characters.now) }
    {
        let text = Text::from_str(alloc, characters)?;
        if let Some(slot) = self.slots.get_mut(slot_of(characters)) {
            *slot = Some(text.clone()?);
        }
        Ok(text)
    }
}
