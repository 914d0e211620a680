ghost use Rattle.std.specs.Prelude.{◌≡◌, ℕ, length, Option, IfOk};
ghost use Rattle.graph_order.specs.declared.setup.Setup.{Setup};
ghost use Rattle.held_parts.specs.Places.{IsPlace, ShowParts, ShowOthers};

use crate::Place;
use lv_base::NoMemory;
use plug_api::Codes;
use std::alloc::Global;
use std::mem;

/// The instances of a run, each at its place.
#[derive(Drop)]
pub struct Parts<C: Codes> {
    places: Vec<Place<C>>,
}

impl<C: Codes> Parts<C> {
    /// Places for so many instances, none of which is made.
    pub fn new(alloc: Global, count: usize) -> Result<Self, NoMemory>
        ensures { IfOk result (λ parts. (setup : Setup) (fronts : ℕ → Option C.Front) (backs : ℕ → Option C.Back) → length setup.decls ≡ count → ShowParts setup fronts backs parts.places.items) }
    {
        let mut places = Vec::with_capacity(alloc, count)?;
        for _ in 0..count {
            places.push(Place::Away)?;
        }
        Ok(Parts { places })
    }

    /// Takes what stands at the place of an instance, which is away then.
    pub fn take(&mut self, inst: u32) -> Place<C>
        ensures place { (setup : Setup) (fronts : ℕ → Option C.Front) (backs : ℕ → Option C.Back) → ShowParts setup fronts backs self.old.places.items → IsPlace setup inst (fronts inst) (backs inst) result }
        ensures others { (setup : Setup) (fronts : ℕ → Option C.Front) (backs : ℕ → Option C.Back) → ShowParts setup fronts backs self.old.places.items → ShowOthers setup inst fronts backs self.new.places.items }
    {
        match self.places.get_mut(inst as usize) {
            Some(place) => mem::replace(place, Place::Away),
            None => Place::Away,
        }
    }

    /// Puts an instance at its place.
    pub fn put(&mut self, inst: u32, place: Place<C>)
        ensures { (setup : Setup) (fronts : ℕ → Option C.Front) (backs : ℕ → Option C.Back) → ShowOthers setup inst fronts backs self.old.places.items → IsPlace setup inst (fronts inst) (backs inst) place → ShowParts setup fronts backs self.new.places.items }
    {
        match self.places.get_mut(inst as usize) {
            Some(there) => mem::drop(mem::replace(there, place)),
            None => mem::drop(place),
        }
    }
}
