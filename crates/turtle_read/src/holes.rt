ghost use Rattle.std.specs.Prelude.{◌≡◌, ◌∷◌, ◌==◌, ◌^◌, [], length, MatchOption, OnOk, IfSome};
ghost use Rattle.turtle_document.specs.Below.{HoleBelow};
ghost use Rattle.turtle_document.specs.Machine.{listed};

use lv_base::NoMemory;
use std::alloc::Global;
use std::marker::Model;
use turtle_document::Hole;

/// What each open bracket fills once it is closed. Contracts see the list, the innermost first.
#[derive(Drop)]
pub struct Holes {
    // the innermost last
    items: Vec<Hole>,
}

impl Model for Holes {
    ghost use Rattle.std.specs.Prelude.{List, reverse, ◌^◌};
    ghost use Rattle.turtle_document.specs.Below.{HolesBelow};
    ghost use Rattle.turtle_document.specs.declared.expected.Hole.{Hole};

    ghost Value = { List Hole };

    ghost view = { λ holes. reverse holes.items.items };

    ghost invariant = { λ holes. HolesBelow (2 ^ 31) (reverse holes.items.items) };
}

impl Holes {
    pub fn new(alloc: Global) -> Self
        ensures { result ≡ [] }
    {
        Holes {
            items: Vec::new(alloc),
        }
    }

    pub fn len(&self) -> usize
        ensures { result ≡ length self.now }
    {
        self.items.len()
    }

    pub fn is_empty(&self) -> bool
        ensures { result ≡ (length self.now == 0) }
    {
        self.items.is_empty()
    }

    pub fn push(&mut self, hole: Hole) -> Result<(), NoMemory>
        requires { HoleBelow (2 ^ 31) hole }
        ensures { OnOk result (self.new ≡ hole ∷ self.old) }
    {
        self.items.push(hole)?;
        Ok(())
    }

    pub fn pop(&mut self) -> Option<Hole>
        ensures pops { MatchOption result ((self.old ≡ []) × (self.new ≡ [])) (λ hole. self.old ≡ hole ∷ self.new) }
        ensures small { IfSome result (HoleBelow (2 ^ 31)) }
    {
        self.items.pop()
    }

    /// A subject in brackets that hold properties is a listed one.
    pub fn list_subject(&mut self) -> Result<(), NoMemory>
        ensures { OnOk result (self.new ≡ listed self.old) }
    {
        match self.pop() {
            Some(Hole::Subject) => self.push(Hole::ListedSubject),
            Some(hole) => self.push(hole),
            None => Ok(()),
        }
    }
}
