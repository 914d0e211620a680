ghost use Rattle.std.specs.Prelude.{◌≡◌, ℕ, List, [], length, IfOk};
ghost use Rattle.step_law.specs.declared.ring.Ring.{Ring};
ghost use Rattle.held_bodies.specs.Waiting.{ShowBodies};

use arrayvec::ArrayVec;
use lv_base::NoMemory;
use std::alloc::Global;
use step_record::Parcel;

/// The bodies that wait on the rings of an instance, the oldest first.
#[derive(Drop)]
pub struct InstBodies {
    pub jobs: ArrayVec<Parcel, 64>,
    pub responses: ArrayVec<Parcel, 64>,
    /// The jobs that its restores beside the runs scheduled.
    pub local: ArrayVec<Parcel, 64>,
}

/// The bodies that wait on all rings.
#[derive(Drop)]
pub struct Bodies {
    /// Those of each instance.
    pub each: Vec<InstBodies>,
    /// What audio sent to control.
    pub replies: ArrayVec<Parcel, 64>,
}

impl InstBodies {
    /// Nothing waits.
    fn none() -> InstBodies
        ensures jobs { result.jobs.items ≡ [] }
        ensures responses { result.responses.items ≡ [] }
        ensures local { result.local.items ≡ [] }
    {
        InstBodies {
            jobs: ArrayVec::new(),
            responses: ArrayVec::new(),
            local: ArrayVec::new(),
        }
    }
}

impl Bodies {
    /// The rings of so many instances, on which nothing waits. From here on nothing takes memory.
    pub fn new(alloc: Global, count: usize) -> Result<Self, NoMemory>
        ensures all { IfOk result (λ bodies. length bodies.each.items ≡ count) }
        ensures none { IfOk result (λ bodies. (waiting : Ring → List (List ℕ)) → ((ring : Ring) → waiting ring ≡ []) → ShowBodies waiting bodies) }
    {
        let mut each = Vec::with_capacity(alloc, count)?;
        for _ in 0..count {
            each.push(InstBodies::none())?;
        }
        Ok(Bodies {
            each,
            replies: ArrayVec::new(),
        })
    }
}
