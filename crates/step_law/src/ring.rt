/// A queue of messages from one actor to another.
#[derive(Clone, Copy, Debug, PartialEq, Eq)]
pub enum Ring {
    /// What control sends to audio.
    ControlToAudio,
    /// What audio sends to control.
    AudioToControl,
    /// What control sends to this worker. Workers count from 1, to 8.
    ControlToWorker(u32),
    /// What this worker sends to control.
    WorkerToControl(u32),
    /// The jobs of this instance, from audio to its worker.
    Jobs(u32),
    /// The responses to this instance, from its worker to audio.
    Responses(u32),
    /// The jobs that a thread-safe restore of this instance schedules, from its worker to itself.
    LocalJobs(u32),
}

impl Ring {
    ghost use Rattle.std.specs.Prelude.{◌≡◌, ◌<◌, ◌^◌, ◌+◌, ◌*◌};
    ghost use Rattle.step_law.specs.Form.{is_ring};
    ghost use Rattle.step_law.specs.Ring.{ring_number, ring_at, actor_ring_at, inst_ring_at};

    /// The number that an entry has for it.
    pub fn number(self) -> u32
        requires { ring_number self < 2 ^ 32 }
        ensures { result ≡ ring_number self }
    {
        match self {
            Ring::ControlToAudio => 0,
            Ring::AudioToControl => 1,
            Ring::ControlToWorker(worker) => 2 * worker,
            Ring::WorkerToControl(worker) => 2 * worker + 1,
            Ring::Jobs(inst) => 18 + 3 * inst,
            Ring::Responses(inst) => 19 + 3 * inst,
            Ring::LocalJobs(inst) => 20 + 3 * inst,
        }
    }

    /// The ring that has this number.
    pub fn from_number(number: u32) -> Self
        ensures value { result ≡ ring_at number }
        ensures number { ring_number result ≡ number }
    {
        if number < 18 {
            Ring::of_actor(number)
        } else {
            Ring::of_inst((number - 18) / 3, (number - 18) % 3)
        }
    }

    fn of_actor(number: u32) -> Self
        ensures value { result ≡ actor_ring_at number }
        ensures number { ring_number result ≡ number }
    {
        match number {
            0 => Ring::ControlToAudio,
            1 => Ring::AudioToControl,
            _ if number % 2 == 0 => Ring::ControlToWorker(number / 2),
            _ => Ring::WorkerToControl(number / 2),
        }
    }

    fn of_inst(inst: u32, place: u32) -> Self
        ensures value { result ≡ inst_ring_at inst place }
        ensures number { place < 3 → ring_number result ≡ 18 + 3 * inst + place }
    {
        match place {
            0 => Ring::Jobs(inst),
            1 => Ring::Responses(inst),
            _ => Ring::LocalJobs(inst),
        }
    }

    /// Whether its worker is 1 to 8, and its instance below 32.
    pub fn is_one(self) -> bool
        ensures { result ≡ is_ring self }
    {
        match self {
            Ring::ControlToAudio | Ring::AudioToControl => true,
            Ring::ControlToWorker(worker) | Ring::WorkerToControl(worker) => {
                0 < worker && worker < 9
            }
            Ring::Jobs(inst) | Ring::Responses(inst) | Ring::LocalJobs(inst) => inst < 32,
        }
    }
}
