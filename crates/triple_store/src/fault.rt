ghost use Rattle.std.specs.Prelude.{◌≡◌};
ghost use Rattle.triple_store.specs.declared.fault.StoreFault.TheVariants.{NoMemory};

use lv_base::NoMemory;
use std::alloc::AllocError;

/// The most rows that a store holds.
pub const MOST_ROWS: usize = 1 << 20;

/// Why a triple wasn't added.
#[derive(Clone, Copy, Debug, PartialEq, Eq)]
pub enum StoreFault {
    /// The triple is new, and the store has `MOST_ROWS` rows.
    Full,
    NoMemory,
}

impl From<NoMemory> for StoreFault {
    ghost from_gives = { λ _ made. made ≡ NoMemory };

    fn from(_: NoMemory) -> Self {
        StoreFault::NoMemory
    }
}

impl From<AllocError> for StoreFault {
    ghost from_gives = { λ _ made. made ≡ NoMemory };

    fn from(_: AllocError) -> Self {
        StoreFault::NoMemory
    }
}
