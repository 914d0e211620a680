use judged_log::Halt;
use plug_api::MakeFault;

/// Why an instance isn't made.
#[derive(Clone, Copy)]
pub enum Unmade {
    /// Its code isn't there or refused, or memory was refused.
    Fault(MakeFault),
    /// The run can't go on.
    Halt(Halt),
}

impl From<MakeFault> for Unmade {
    ghost use Rattle.std.specs.Prelude.{◌≡◌};
    ghost use Rattle.told_calls.specs.declared.unmade.Unmade.TheVariants as unmade;

    ghost from_gives = { λ fault made. made ≡ unmade.Fault fault };

    fn from(fault: MakeFault) -> Self {
        Unmade::Fault(fault)
    }
}

impl From<Halt> for Unmade {
    ghost use Rattle.std.specs.Prelude.{◌≡◌};
    ghost use Rattle.told_calls.specs.declared.unmade.Unmade.TheVariants as unmade;

    ghost from_gives = { λ halt made. made ≡ unmade.Halt halt };

    fn from(halt: Halt) -> Self {
        Unmade::Halt(halt)
    }
}
