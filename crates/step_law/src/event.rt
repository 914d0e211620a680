use crate::{Actor, Call, Ring};

/// What happened, with what belongs to it.
#[derive(Clone, Copy)]
pub enum Event {
    /// Audio begins this block.
    Block(u32),
    /// A look at a ring showed so many messages.
    Look(Ring, u32),
    /// A message was taken from a ring.
    Take(Ring),
    /// A message was sent on a ring.
    Send(Ring),
    /// A ring had no room for a message.
    Full(Ring),
    /// A message was too long for a cell of a ring.
    Long(Ring),
    /// Audio has ended this block.
    Done(u32),
    /// The actor stops.
    Stop,
    /// A call on an instance begins.
    Begin(Call, u32),
    /// A call on an instance has ended.
    End(Call, u32),
    /// Control saw how far audio is.
    Beat(u32),
    /// All actors but control have stopped.
    Join,
    /// An action of the session, counted from 0, wasn't sent.
    Late(u32),
    /// The end of the record.
    Last,
}

impl Event {
    ghost use Rattle.std.specs.Prelude.{◌≡◌};
    ghost use Rattle.step_law.specs.Form.{tells, audio_tells, control_tells, worker_tells};

    /// Whether an actor may tell of it.
    pub fn is_told_by(self, actor: Actor) -> bool
        ensures { result ≡ tells actor self }
    {
        match actor {
            Actor::Audio => self.is_told_by_audio(),
            Actor::Control => self.is_told_by_control(),
            Actor::Worker(worker) => (0 < worker && worker < 9) && self.is_told_by_worker(),
        }
    }

    fn is_told_by_audio(self) -> bool
        ensures { result ≡ audio_tells self }
    {
        match self {
            Event::Block(_) | Event::Done(_) | Event::Stop => true,
            Event::Look(ring, _) | Event::Take(ring) | Event::Send(ring) => ring.is_one(),
            Event::Full(ring) | Event::Long(ring) => ring.is_one(),
            Event::Begin(call, inst) | Event::End(call, inst) => call.is_by_audio() && inst < 32,
            _ => false,
        }
    }

    fn is_told_by_control(self) -> bool
        ensures { result ≡ control_tells self }
    {
        match self {
            Event::Beat(_) | Event::Join | Event::Late(_) | Event::Last => true,
            Event::Take(ring) | Event::Send(ring) => ring.is_one(),
            Event::Begin(call, inst) | Event::End(call, inst) => call.is_by_control() && inst < 32,
            _ => false,
        }
    }

    fn is_told_by_worker(self) -> bool
        ensures { result ≡ worker_tells self }
    {
        match self {
            Event::Stop => true,
            Event::Take(ring) | Event::Send(ring) => ring.is_one(),
            Event::Full(ring) | Event::Long(ring) => ring.is_one(),
            Event::Begin(call, inst) | Event::End(call, inst) => call.is_by_worker() && inst < 32,
            _ => false,
        }
    }
}
