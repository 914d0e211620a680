use lv_base::{NoMemory, Text};
use thiserror::Error;
use turtle_read::TurtleFault;

/// Why files can't be loaded. A path is that of the vault.
#[derive(Debug, Drop, Error)]
pub enum LoadFault {
    /// There is no such file.
    #[error("missing {0}")]
    Missing(Text),
    /// The file couldn't be read.
    #[error("read failed {0}")]
    ReadFailed(Text),
    /// The file has more than `MOST_FILE_BYTES` bytes.
    #[error("too long {0}")]
    TooLong(Text),
    /// The file is no Turtle document that can be read, and why.
    #[error("turtle {path}: {fault:?}")]
    Turtle { path: Text, fault: TurtleFault },
    #[error("no memory")]
    NoMemory,
}

impl From<NoMemory> for LoadFault {
    ghost use Rattle.std.specs.Prelude.{◌≡◌};
    ghost use Rattle.session_load.specs.declared.fault.LoadFault.TheVariants as faults;

    ghost from_gives = { λ _ made. made ≡ faults.NoMemory };

    fn from(_: NoMemory) -> Self {
        LoadFault::NoMemory
    }
}
