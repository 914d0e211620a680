//! What a session has of an instance and of a ring; what isn't there has nothing.
ghost use Rattle.std.specs.Prelude.{◌≡◌};
ghost use Rattle.record_law.specs.Shape as spec;

use record_law::Shape;
use step_law::{Actor, Ring};

/// The worker that an instance belongs to.
pub fn worker_of(shape: &Shape, inst: u32) -> u32
    ensures { result ≡ spec.worker_of shape.now inst }
{
    shape.insts.get(inst as usize).map_or(0, |it| it.worker)
}

/// Whether an instance schedules work.
pub fn works(shape: &Shape, inst: u32) -> bool
    ensures { result ≡ spec.works shape.now inst }
{
    shape.insts.get(inst as usize).is_some_and(|it| it.works)
}

/// Whether an instance has a reply port.
pub fn replies(shape: &Shape, inst: u32) -> bool
    ensures { result ≡ spec.replies shape.now inst }
{
    shape.insts.get(inst as usize).is_some_and(|it| it.replies)
}

/// Who sends on a ring.
pub fn sender(shape: &Shape, ring: Ring) -> Actor
    ensures { result ≡ spec.sender shape.now ring }
{
    match ring {
        Ring::ControlToAudio | Ring::ControlToWorker(_) => Actor::Control,
        Ring::AudioToControl | Ring::Jobs(_) => Actor::Audio,
        Ring::WorkerToControl(worker) => Actor::Worker(worker),
        Ring::Responses(inst) | Ring::LocalJobs(inst) => Actor::Worker(worker_of(shape, inst)),
    }
}
