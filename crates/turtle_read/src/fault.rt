ghost use Rattle.std.specs.Prelude.{◌≡◌};
ghost use Rattle.turtle_read.specs.Faults.{whole_of};
ghost use Rattle.turtle_read.specs.declared.fault.TurtleFault.TheVariants as faults;

use crate::token_fault::TokenFault;
use lv_base::NoMemory;
use std::alloc::AllocError;
use turtle_lex::LexFault;

/// Why bytes are no Turtle document. A place is that of a token's first byte.
#[derive(Clone, Copy, Debug, PartialEq, Eq)]
pub enum TurtleFault {
    /// They don't fall into tokens.
    Lex(LexFault),
    /// No document goes on with this token, or the bytes end here, within a statement.
    Syntax(usize),
    /// No directive before this name has its prefix.
    NoPrefix(usize),
    /// This IRI has an escape of a character that no IRI has.
    BadIri(usize),
    /// 256 brackets are open, and here is one more.
    Depth(usize),
    /// A triple that is new belongs here, and the store is full.
    StoreFull(usize),
    /// Memory was refused.
    NoMemory,
}

impl From<NoMemory> for TurtleFault {
    ghost from_gives = { λ _ made. made ≡ faults.NoMemory };

    fn from(_: NoMemory) -> Self {
        TurtleFault::NoMemory
    }
}

impl From<AllocError> for TurtleFault {
    ghost from_gives = { λ _ made. made ≡ faults.NoMemory };

    fn from(_: AllocError) -> Self {
        TurtleFault::NoMemory
    }
}

impl From<TokenFault> for TurtleFault {
    ghost from_gives = { λ fault made. made ≡ whole_of fault };

    fn from(fault: TokenFault) -> Self {
        match fault {
            TokenFault::Syntax(at) => TurtleFault::Syntax(at),
            TokenFault::NoPrefix(at) => TurtleFault::NoPrefix(at),
            TokenFault::BadIri(at) => TurtleFault::BadIri(at),
            TokenFault::Depth(at) => TurtleFault::Depth(at),
            TokenFault::StoreFull(at) => TurtleFault::StoreFull(at),
            TokenFault::NoMemory => TurtleFault::NoMemory,
        }
    }
}

impl From<LexFault> for TurtleFault {
    ghost from_gives = { λ fault made. made ≡ faults.Lex fault };

    fn from(fault: LexFault) -> Self {
        TurtleFault::Lex(fault)
    }
}
