ghost use Rattle.std.specs.Prelude.{◌≡◌, ℕ, Ok, Err, if◌then◌else◌};
ghost use Rattle.atom_core.specs.Value.{Value, keyed, Parts, none, part};
ghost use Rattle.atom_core.specs.Answer.{Spells};
ghost use Rattle.atom_core.specs.Atoms.{SpellProperties};
ghost use Rattle.patch_control.specs.declared.message.PatchFault.TheVariants.{SameKey};
ghost use Rattle.patch_control.specs.Message.{counted, an_object, or_absent, get_in, set_in, put_in, Reads};
ghost use Rattle.patch_control.specs.Gathering.{Gathers, Views, repeats_in};

use crate::message::{Message, PatchFault};
use crate::slot::Slot;
use crate::words::{BODY, PROPERTY, SUBJECT, VALUE};
use atom_core::{AtomProperties, AtomView};

/// What was found in an object's properties.
#[derive(Clone, Copy)]
pub(crate) struct Found<'a> {
    property: Slot<u32>,
    subject: Slot<u32>,
    value: Slot<AtomView<'a>>,
    body: Slot<AtomView<'a>>,
}

/// The number of a URID other than 0.
fn counted(atom: AtomView<'_>) -> Option<u32>
    ensures { (v : Value) → Spells atom.entry.bytes.now v → result ≡ counted v }
{
    atom.urid().filter(|number| *number != 0)
}

/// The atom, if it is an Object.
fn an_object(atom: AtomView<'_>) -> Option<AtomView<'_>>
    ensures { (v : Value) → Spells atom.entry.bytes.now v → Views result (an_object v) }
{
    match atom.properties() {
        Some(_) => Some(atom),
        None => None,
    }
}

impl<'a> Found<'a> {
    /// Nothing yet.
    fn nothing() -> Self
        ensures { (parts : Parts) → Gathers parts result parts }
    {
        Found {
            property: Slot::empty(),
            subject: Slot::empty(),
            value: Slot::empty(),
            body: Slot::empty(),
        }
    }

    /// Adds a property.
    fn add(&mut self, key: u32, atom: AtomView<'a>)
        ensures { (all rest : Parts) (context : ℕ) (v : Value) → Spells atom.entry.bytes.now v → Gathers all self.old (part (keyed key context) v rest) → Gathers all self.new rest }
    {
        match key {
            PROPERTY => self.property.add(counted(atom)),
            SUBJECT => self.subject.add(counted(atom)),
            VALUE => self.value.add(Some(atom)),
            BODY => self.body.add(an_object(atom)),
            _ => {}
        }
    }

    fn fill(&mut self, mut properties: AtomProperties<'a>)
        ensures { (all : Parts) → SpellProperties properties.entry all → Gathers all self.old all → Gathers all self.new none }
    {
        while let Some((key, _, atom)) = properties.next() {
            self.add(key, atom);
        }
    }

    /// What is found in these properties, in one pass.
    pub fn of(properties: AtomProperties<'a>) -> Self
        ensures { (parts : Parts) → SpellProperties properties.entry parts → Gathers parts result none }
    {
        let mut found = Found::nothing();
        found.fill(properties);
        found
    }

    fn subject(&self) -> u32
        ensures { result ≡ or_absent self.now.subject.item }
    {
        self.subject.item.unwrap_or(0)
    }

    /// Whether one of the keys stands twice.
    fn repeats(&self) -> bool
        ensures { result ≡ repeats_in self.now }
    {
        self.property.again || self.value.again || self.subject.again || self.body.again
    }

    /// The message, unless a key stands twice.
    fn once(&self, message: Message<'a>) -> Result<Message<'a>, PatchFault>
        ensures { result ≡ (if repeats_in self.now then Err SameKey else Ok message.entry) }
    {
        if self.repeats() {
            return Err(PatchFault::SameKey);
        }
        Ok(message)
    }

    /// What these properties say in a Get.
    pub fn get(&self) -> Result<Message<'a>, PatchFault>
        ensures { (parts : Parts) → Gathers parts self.now none → Reads result (get_in parts) }
    {
        self.once(Message::Get {
            property: self.property.item.unwrap_or(0),
            subject: self.subject(),
        })
    }

    /// What they say in a Set.
    pub fn set(&self) -> Result<Message<'a>, PatchFault>
        ensures { (parts : Parts) → Gathers parts self.now none → Reads result (set_in parts) }
    {
        let Some(property) = self.property.item else {
            return Err(PatchFault::NoProperty);
        };
        let Some(value) = self.value.item else {
            return Err(PatchFault::NoValue);
        };
        self.once(Message::Set {
            property,
            subject: self.subject(),
            value,
        })
    }

    /// What they say in a Put.
    pub fn put(&self) -> Result<Message<'a>, PatchFault>
        ensures { (parts : Parts) → Gathers parts self.now none → Reads result (put_in parts) }
    {
        let Some(body) = self.body.item else {
            return Err(PatchFault::NoBody);
        };
        self.once(Message::Put {
            subject: self.subject(),
            body,
        })
    }
}
