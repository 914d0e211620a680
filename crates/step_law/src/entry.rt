ghost use Rattle.std.specs.Prelude.{◌≡◌};
ghost use Rattle.step_law.specs.Told.{if_zero};

use crate::{Actor, Call, Event, Ring};

/// One event of a run. In `Begin` and `End`, `a` is the call and `b` the instance. Elsewhere `a` is the ring, or the
/// number that the line shows, and `b` is the number of a look, else 0.
#[derive(Clone, Copy, Debug, PartialEq, Eq)]
pub struct Entry {
    /// 0 is audio, 1 is control, and `1 + w` is worker `w`, from 1.
    pub actor: u32,
    pub kind: Kind,
    pub a: u32,
    pub b: u32,
}

impl Entry {
    ghost use Rattle.std.specs.Prelude.{◌≡◌, ◌<◌, ◌^◌, Some, None, IfSome, IsTrue};
    ghost use Rattle.step_law.specs.declared.event.Event.{Event};
    ghost use Rattle.step_law.specs.Actor.{actor_number};
    ghost use Rattle.step_law.specs.Event.{entry_from};
    ghost use Rattle.step_law.specs.Form.{IsFormOf, tells};
    ghost use Rattle.step_law.specs.Told.{event_at, event_of};
    ghost use Rattle.step_law.specs.Ring.{ring_number};
    ghost use Rattle.step_law.specs.Entry.{entry_of, block_of, done_of, look_of, take_of, send_of, full_of, long_of, begin_of, end_of, stop_of, beat_of, join, late_of, last};

    /// Audio begins a block.
    pub fn block(block: u32) -> Self
        ensures { result ≡ block_of block }
    {
        Entry::by(Actor::Audio, Kind::Block, block, 0)
    }

    /// Audio has ended a block.
    pub fn done(block: u32) -> Self
        ensures { result ≡ done_of block }
    {
        Entry::by(Actor::Audio, Kind::Done, block, 0)
    }

    /// A look at a ring showed so many messages.
    pub fn look(actor: Actor, ring: Ring, shown: u32) -> Self
        requires actor { actor_number actor < 2 ^ 32 }
        requires ring { ring_number ring < 2 ^ 32 }
        ensures { result ≡ look_of actor ring shown }
    {
        Entry::by(actor, Kind::Look, ring.number(), shown)
    }

    /// A message was taken from a ring.
    pub fn take(actor: Actor, ring: Ring) -> Self
        requires actor { actor_number actor < 2 ^ 32 }
        requires ring { ring_number ring < 2 ^ 32 }
        ensures { result ≡ take_of actor ring }
    {
        Entry::by(actor, Kind::Take, ring.number(), 0)
    }

    /// A message was sent on a ring.
    pub fn send(actor: Actor, ring: Ring) -> Self
        requires actor { actor_number actor < 2 ^ 32 }
        requires ring { ring_number ring < 2 ^ 32 }
        ensures { result ≡ send_of actor ring }
    {
        Entry::by(actor, Kind::Send, ring.number(), 0)
    }

    /// A ring had no room for a message.
    pub fn full(actor: Actor, ring: Ring) -> Self
        requires actor { actor_number actor < 2 ^ 32 }
        requires ring { ring_number ring < 2 ^ 32 }
        ensures { result ≡ full_of actor ring }
    {
        Entry::by(actor, Kind::Full, ring.number(), 0)
    }

    /// A message was too long for a cell of a ring.
    pub fn long(actor: Actor, ring: Ring) -> Self
        requires actor { actor_number actor < 2 ^ 32 }
        requires ring { ring_number ring < 2 ^ 32 }
        ensures { result ≡ long_of actor ring }
    {
        Entry::by(actor, Kind::Long, ring.number(), 0)
    }

    /// A call on an instance begins.
    pub fn begin(actor: Actor, call: Call, inst: u32) -> Self
        requires { actor_number actor < 2 ^ 32 }
        ensures { result ≡ begin_of actor call inst }
    {
        Entry::by(actor, Kind::Begin, call.number(), inst)
    }

    /// A call on an instance has ended.
    pub fn end(actor: Actor, call: Call, inst: u32) -> Self
        requires { actor_number actor < 2 ^ 32 }
        ensures { result ≡ end_of actor call inst }
    {
        Entry::by(actor, Kind::End, call.number(), inst)
    }

    /// An actor stops.
    pub fn stop(actor: Actor) -> Self
        requires { actor_number actor < 2 ^ 32 }
        ensures { result ≡ stop_of actor }
    {
        Entry::by(actor, Kind::Stop, 0, 0)
    }

    /// Control saw how far audio is: the number of blocks that have ended, and one more once audio has stopped.
    pub fn beat(progress: u32) -> Self
        ensures { result ≡ beat_of progress }
    {
        Entry::by(Actor::Control, Kind::Beat, progress, 0)
    }

    /// All actors but control have stopped.
    pub fn join() -> Self
        ensures { result ≡ join }
    {
        Entry::by(Actor::Control, Kind::Join, 0, 0)
    }

    /// An action of the session, counted from 0, wasn't sent.
    pub fn late(action: u32) -> Self
        ensures { result ≡ late_of action }
    {
        Entry::by(Actor::Control, Kind::Late, action, 0)
    }

    /// The end of the record.
    pub fn last() -> Self
        ensures { result ≡ last }
    {
        Entry::by(Actor::Control, Kind::Last, 0, 0)
    }

    /// The entry of an actor's event.
    pub fn from_event(actor: Actor, event: Event) -> Self
        requires { IsTrue (tells actor event) }
        ensures value { result ≡ entry_from actor event }
        ensures form { IsFormOf event result }
    {
        match event {
            Event::Block(block) => Entry::by(actor, Kind::Block, block, 0),
            Event::Look(ring, shown) => Entry::by(actor, Kind::Look, ring.number(), shown),
            Event::Take(ring) => Entry::by(actor, Kind::Take, ring.number(), 0),
            Event::Send(ring) => Entry::by(actor, Kind::Send, ring.number(), 0),
            Event::Full(ring) => Entry::by(actor, Kind::Full, ring.number(), 0),
            Event::Long(ring) => Entry::by(actor, Kind::Long, ring.number(), 0),
            Event::Done(block) => Entry::by(actor, Kind::Done, block, 0),
            Event::Stop => Entry::by(actor, Kind::Stop, 0, 0),
            Event::Begin(call, inst) => Entry::by(actor, Kind::Begin, call.number(), inst),
            Event::End(call, inst) => Entry::by(actor, Kind::End, call.number(), inst),
            Event::Beat(progress) => Entry::by(actor, Kind::Beat, progress, 0),
            Event::Join => Entry::by(actor, Kind::Join, 0, 0),
            Event::Late(action) => Entry::by(actor, Kind::Late, action, 0),
            Event::Last => Entry::by(actor, Kind::Last, 0, 0),
        }
    }

    /// The event that it tells of, if it has a form.
    pub fn event(self) -> Option<Event>
        ensures value { result ≡ event_of self }
        ensures form { IfSome result (λ event. IsFormOf event self) }
        ensures each { (event : Event) → IsFormOf event self → result ≡ Some event }
    {
        self.told_by_actor()
    }

    fn told_by_actor(self) -> Option<Event>
        ensures { result ≡ event_of self }
    {
        match self.told() {
            Some(event) if event.is_told_by(Actor::from_number(self.actor)) => Some(event),
            _ => None,
        }
    }

    fn told(self) -> Option<Event>
        ensures { result ≡ event_at self.kind self.a self.b }
    {
        let second = u64::from(self.b);
        let both = u64::from(self.a) + second;
        match self.kind {
            Kind::Block => alone(second, Event::Block(self.a)),
            Kind::Look => Some(Event::Look(Ring::from_number(self.a), self.b)),
            Kind::Take => alone(second, Event::Take(Ring::from_number(self.a))),
            Kind::Send => alone(second, Event::Send(Ring::from_number(self.a))),
            Kind::Full => alone(second, Event::Full(Ring::from_number(self.a))),
            Kind::Long => alone(second, Event::Long(Ring::from_number(self.a))),
            Kind::Done => alone(second, Event::Done(self.a)),
            Kind::Stop => alone(both, Event::Stop),
            Kind::Begin => Some(Event::Begin(Call::from_number(self.a)?, self.b)),
            Kind::End => Some(Event::End(Call::from_number(self.a)?, self.b)),
            Kind::Beat => alone(second, Event::Beat(self.a)),
            Kind::Join => alone(both, Event::Join),
            Kind::Late => alone(second, Event::Late(self.a)),
            Kind::Last => alone(both, Event::Last),
        }
    }

    fn by(actor: Actor, kind: Kind, a: u32, b: u32) -> Self
        requires { actor_number actor < 2 ^ 32 }
        ensures { result ≡ entry_of actor kind a b }
    {
        Entry {
            actor: actor.number(),
            kind,
            a,
            b,
        }
    }
}

// An event, if the places that it leaves empty are 0.
fn alone(rest: u64, event: Event) -> Option<Event>
    ensures { result ≡ if_zero rest event }
{
    if rest == 0 { Some(event) } else { None }
}

/// What happened.
#[derive(Clone, Copy, Debug, PartialEq, Eq)]
pub enum Kind {
    /// Audio begins a block.
    Block,
    /// A look at a ring showed so many messages.
    Look,
    /// A message was taken from a ring.
    Take,
    /// A message was sent on a ring.
    Send,
    /// A ring had no room for a message.
    Full,
    /// A message was too long for a cell.
    Long,
    /// Audio has ended a block.
    Done,
    /// An actor stops.
    Stop,
    /// A call on an instance begins.
    Begin,
    /// A call on an instance has ended.
    End,
    /// Control saw how far audio is.
    Beat,
    /// All actors but control have stopped.
    Join,
    /// An action of the session wasn't sent.
    Late,
    /// The end of the record.
    Last,
}
