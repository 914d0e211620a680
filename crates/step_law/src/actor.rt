/// Who does something.
#[derive(Clone, Copy, Debug, PartialEq, Eq)]
pub enum Actor {
    Audio,
    Control,
    /// A worker, counted from 1.
    Worker(u32),
}

impl Actor {
    ghost use Rattle.std.specs.Prelude.{◌≡◌, ◌<◌, ◌^◌};
    ghost use Rattle.step_law.specs.Actor.{actor_number, actor_at};

    /// The number that an entry has for it.
    pub fn number(self) -> u32
        requires { actor_number self < 2 ^ 32 }
        ensures { result ≡ actor_number self }
    {
        match self {
            Actor::Audio => 0,
            Actor::Control => 1,
            Actor::Worker(worker) => 1 + worker,
        }
    }

    /// The actor that has this number.
    pub fn from_number(number: u32) -> Self
        ensures value { result ≡ actor_at number }
        ensures number { actor_number result ≡ number }
    {
        match number {
            0 => Actor::Audio,
            1 => Actor::Control,
            _ => Actor::Worker(number - 1),
        }
    }
}
