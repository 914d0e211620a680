ghost use Rattle.std.specs.Prelude.{◌≡◌};
ghost use Rattle.turtle_read.specs.declared.token_fault.TokenFault.TheVariants as faults;

use lv_base::NoMemory;
use std::alloc::AllocError;

/// Why a token isn't taken: the faults of a document that are no lexer's. They are small, since each move of the reader gives a
/// `Result` with them.
#[derive(Clone, Copy)]
pub enum TokenFault {
    Syntax(usize),
    NoPrefix(usize),
    BadIri(usize),
    Depth(usize),
    StoreFull(usize),
    NoMemory,
}

impl From<NoMemory> for TokenFault {
    ghost from_gives = { λ _ made. made ≡ faults.NoMemory };

    fn from(_: NoMemory) -> Self {
        TokenFault::NoMemory
    }
}

impl From<AllocError> for TokenFault {
    ghost from_gives = { λ _ made. made ≡ faults.NoMemory };

    fn from(_: AllocError) -> Self {
        TokenFault::NoMemory
    }
}
