//! Documents of a bundle.

ghost use Rattle.std.specs.Prelude.{◌≡◌, true, is_some, IfOk};
ghost use Rattle.iri_resolve.specs.Components.{scheme_of};

use lv_base::{NoMemory, Text};
use std::alloc::Global;
use triple_store::Store;
use turtle_read::{TurtleFault, read};

/// The base of all documents here.
pub fn base(alloc: Global) -> Result<Text, NoMemory>
    ensures { IfOk result (λ base. is_some (scheme_of base) ≡ true) }
{
    Text::from_str(alloc, "file:///bundle/0/manifest.ttl")
}

/// What bytes are in a store without rows, and how many rows they leave.
pub fn read_new(alloc: Global, base: &Text, bytes: &[u8]) -> (Result<u32, TurtleFault>, u32)
    requires { is_some (scheme_of base.now) ≡ true }
{
    let mut store = Store::new(alloc);
    let result = read(alloc, base, bytes, &mut store);
    (result, store.count())
}

/// What two byte strings are in one store, and how many rows they leave.
pub fn read_two(
    alloc: Global,
    base: &Text,
    first: &[u8],
    second: &[u8],
) -> (Result<u32, TurtleFault>, Result<u32, TurtleFault>, u32)
    requires { is_some (scheme_of base.now) ≡ true }
{
    let mut store = Store::new(alloc);
    let first = read(alloc, base, first, &mut store);
    let second = read(alloc, base, second, &mut store);
    (first, second, store.count())
}
