ghost use Rattle.std.specs.Prelude.{◌≡◌, IfOk};

use lv_base::{Bytes, NoMemory};
use std::alloc::Global;

/// The value of a property.
#[derive(Drop)]
pub struct Prop {
    /// The number of its type.
    pub kind: u32,
    /// `LV2_STATE_IS_POD` (1) and `LV2_STATE_IS_PORTABLE` (2), perhaps with `LV2_STATE_IS_NATIVE` (4).
    pub flags: u32,
    pub bytes: Bytes,
}

impl Prop {
    pub(crate) fn copy(&self, alloc: Global) -> Result<Prop, NoMemory>
        ensures { IfOk result (λ copy. copy ≡ self.now) }
    {
        let bytes = Bytes::from_slice(alloc, self.bytes.as_slice())?;
        Ok(Prop {
            kind: self.kind,
            flags: self.flags,
            bytes,
        })
    }
}
