use lv_base::NoMemory;
use record_law::Broken;

/// Why a session isn't played on.
#[derive(Clone, Copy)]
pub enum Halt {
    /// Memory was refused.
    NoMemory,
    /// The next entry would break this rule first.
    Broken(Broken),
    /// An entry is about something else than its maker meant.
    Astray,
}

impl From<NoMemory> for Halt {
    ghost use Rattle.std.specs.Prelude.{◌≡◌};
    ghost use Rattle.judged_log.specs.declared.halt.Halt.TheVariants as halt;

    ghost from_gives = { λ _ made. made ≡ halt.NoMemory };

    fn from(_: NoMemory) -> Self {
        Halt::NoMemory
    }
}

impl From<Broken> for Halt {
    ghost use Rattle.std.specs.Prelude.{◌≡◌};
    ghost use Rattle.judged_log.specs.declared.halt.Halt.TheVariants as halt;

    ghost from_gives = { λ rule made. made ≡ halt.Broken rule };

    fn from(rule: Broken) -> Self {
        Halt::Broken(rule)
    }
}
