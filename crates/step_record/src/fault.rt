use lv_base::NoMemory;

/// Why a text is no record.
#[derive(Clone, Copy, Debug, PartialEq, Eq)]
pub enum RecordFault {
    /// So many lines follow the first, a last line `end` not counted: more than 2^22 + 2^19.
    TooMany(u64),
    /// The first line without a form.
    Syntax(u64),
    /// Memory was refused.
    NoMemory,
}

impl From<NoMemory> for RecordFault {
    ghost use Rattle.std.specs.Prelude.{◌≡◌};
    ghost use Rattle.step_record.specs.declared.fault.RecordFault.TheVariants as faults;

    ghost from_gives = { λ _ fault. fault ≡ faults.NoMemory };

    fn from(_: NoMemory) -> Self {
        RecordFault::NoMemory
    }
}
