/// A call on an instance of a plug-in. Its number in an entry is `call as u32`.
#[derive(Clone, Copy, Debug, PartialEq, Eq)]
pub enum Call {
    Run = 0,
    Response = 1,
    EndRun = 2,
    Work = 3,
    Save = 4,
    RestoreSafe = 5,
    Make = 6,
    Activate = 7,
    Deactivate = 8,
    Cleanup = 9,
    Restore = 10,
}

impl Call {
    ghost use Rattle.std.specs.Prelude.{◌≡◌, IfSome};
    ghost use Rattle.step_law.specs.Call.{call_number, call_at, call_name};
    ghost use Rattle.step_law.specs.Form.{audio_calls, control_calls, worker_calls};

    /// The number that an entry has for it.
    pub fn number(self) -> u32
        ensures { result ≡ call_number self }
    {
        self as u32
    }

    /// The call that has this number, if one has.
    pub fn from_number(number: u32) -> Option<Self>
        ensures value { result ≡ call_at number }
        ensures number { IfSome result (λ call. call_number call ≡ number) }
    {
        match number {
            0 => Some(Call::Run),
            1 => Some(Call::Response),
            2 => Some(Call::EndRun),
            3 => Some(Call::Work),
            4 => Some(Call::Save),
            5 => Some(Call::RestoreSafe),
            6 => Some(Call::Make),
            7 => Some(Call::Activate),
            8 => Some(Call::Deactivate),
            9 => Some(Call::Cleanup),
            10 => Some(Call::Restore),
            _ => None,
        }
    }

    /// Its name in the record's text.
    pub fn name(self) -> &'static str
        ensures { result.now ≡ call_name self }
    {
        match self {
            Call::Run => "run",
            Call::Response => "response",
            Call::EndRun => "end_run",
            Call::Work => "work",
            Call::Save => "save",
            Call::RestoreSafe => "restore_safe",
            Call::Make => "make",
            Call::Activate => "activate",
            Call::Deactivate => "deactivate",
            Call::Cleanup => "cleanup",
            Call::Restore => "restore",
        }
    }

    /// Whether audio makes it.
    pub fn is_by_audio(self) -> bool
        ensures { result ≡ audio_calls self }
    {
        matches!(self, Call::Run | Call::Response | Call::EndRun)
    }

    /// Whether control makes it.
    pub fn is_by_control(self) -> bool
        ensures { result ≡ control_calls self }
    {
        match self {
            Call::Make | Call::Activate | Call::Deactivate | Call::Cleanup => true,
            Call::Save | Call::Restore => true,
            _ => false,
        }
    }

    /// Whether a worker makes it.
    pub fn is_by_worker(self) -> bool
        ensures { result ≡ worker_calls self }
    {
        matches!(self, Call::Work | Call::Save | Call::RestoreSafe)
    }
}
