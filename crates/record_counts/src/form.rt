ghost use Rattle.std.specs.Prelude.{◌≡◌, false};
ghost use Rattle.std.specs.Option.{option_map_or};
ghost use Rattle.step_law.specs.Told.{event_of};
ghost use Rattle.record_law.specs.There as there;

use record_law::Shape;
use record_terms::works;
use step_law::{Actor, Entry, Event, Ring};

/// Whether an entry has a form in a session: the actors, rings and instances that it names are there.
pub fn has_form(shape: &Shape, entry: Entry) -> bool
    ensures { result ≡ there.has_form shape.now entry }
{
    is_actor_there(shape, Actor::from_number(entry.actor)) && tells_of_what_is_there(shape, entry)
}

fn tells_of_what_is_there(shape: &Shape, entry: Entry) -> bool
    ensures { result ≡ option_map_or (there.names_what_is_there shape.now) (event_of entry) false }
{
    match entry.event() {
        Some(event) => names_what_is_there(shape, event),
        None => false,
    }
}

fn names_what_is_there(shape: &Shape, event: Event) -> bool
    ensures { result ≡ there.names_what_is_there shape.now event }
{
    match event {
        Event::Look(ring, _) | Event::Take(ring) | Event::Send(ring) => is_ring_there(shape, ring),
        Event::Full(ring) | Event::Long(ring) => is_ring_there(shape, ring),
        Event::Begin(_, inst) | Event::End(_, inst) => (inst as usize) < shape.insts.len(),
        _ => true,
    }
}

fn is_ring_there(shape: &Shape, ring: Ring) -> bool
    ensures { result ≡ there.is_ring_there shape.now ring }
{
    match ring {
        Ring::ControlToAudio | Ring::AudioToControl => true,
        Ring::ControlToWorker(worker) | Ring::WorkerToControl(worker) => {
            is_worker_there(shape, worker)
        }
        Ring::Jobs(inst) | Ring::Responses(inst) | Ring::LocalJobs(inst) => works(shape, inst),
    }
}

fn is_actor_there(shape: &Shape, actor: Actor) -> bool
    ensures { result ≡ there.is_actor_there shape.now actor }
{
    match actor {
        Actor::Audio | Actor::Control => true,
        Actor::Worker(worker) => is_worker_there(shape, worker),
    }
}

fn is_worker_there(shape: &Shape, worker: u32) -> bool
    ensures { result ≡ there.is_worker_there shape.now worker }
{
    1 <= worker && worker <= shape.workers
}
