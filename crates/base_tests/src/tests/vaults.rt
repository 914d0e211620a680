ghost use Rattle.std.specs.Prelude.{◌≡◌, ◌≢◌, ◌≤◌, ◌<◌, ℕ, List, length, IsTrue, false, Some, None};
ghost use Rattle.lv_outside.specs.Count.{Rose};

use lv_base::Bytes;
use lv_outside::{DirVault, Fetch, MemVault, Put, Vault};
use std::alloc::Global;
use std::fs;
use std::test::Fail;

/// What a caller learns of any vault: where no fault comes and memory is there, known contents determine the answer.
fn sure_read<V: Vault>(vault: &mut V, path: &[u8], most: u64, into: &mut Bytes) -> Fetch
    ensures absent { IsTrue (V.state vault.old).tells → (Rose (V.state vault.old).faults (V.state vault.new).faults → ⊥) → result ≢ Fetch.NoMemory
        → (V.state vault.old).file path.now ≡ None → result ≡ Fetch.Absent }
    ensures long { IsTrue (V.state vault.old).tells → (Rose (V.state vault.old).faults (V.state vault.new).faults → ⊥) → result ≢ Fetch.NoMemory
        → (bytes : List ℕ) → (V.state vault.old).file path.now ≡ Some bytes → most < length bytes → result ≡ Fetch.TooLong }
    ensures got { IsTrue (V.state vault.old).tells → (Rose (V.state vault.old).faults (V.state vault.new).faults → ⊥) → result ≢ Fetch.NoMemory
        → (bytes : List ℕ) → (V.state vault.old).file path.now ≡ Some bytes → length bytes ≤ most → result ≡ Fetch.Got }
{
    vault.read(path, most, into)
}

/// A fault in one of several calls shows in the count after all of them.
fn two_writes<V: Vault>(vault: &mut V, path: &[u8], bytes: &[u8]) -> bool
    ensures { result ≡ false → Rose (V.state vault.old).faults (V.state vault.new).faults }
{
    let first = vault.write(path, bytes);
    let second = vault.write(path, bytes);
    first == Put::Done && second == Put::Done
}

/// A vault with the file `a/b` of ten bytes.
fn one_file(alloc: Global, fails: &[u64]) -> Result<MemVault, Fail> {
    let path = Bytes::from_slice(alloc, b"a/b")?;
    let bytes = Bytes::from_slice(alloc, b"0123456789")?;
    let files = vec![in alloc; (path, bytes)]?;
    Ok(MemVault::new(alloc, files, fails.to_vec(alloc)?))
}

fn is_read<V: Vault>(vault: &mut V, path: &[u8], into: &mut Bytes, bytes: &[u8]) -> bool {
    vault.read(path, bytes.len() as u64, into) == Fetch::Got && into.as_slice() == bytes
}

/// Whether a read of at most nine bytes gives this answer.
fn answers<V: Vault>(vault: &mut V, path: &[u8], into: &mut Bytes, wanted: Fetch) -> bool {
    sure_read(vault, path, 9, into) == wanted
}

/// Whether a vault with one file, whose second call is to fail, reads it, fails, and finds it too long.
fn reads_and_fails(vault: &mut MemVault, into: &mut Bytes) -> bool {
    is_read(vault, b"a/b", into, b"0123456789")
        && answers(vault, b"a/b", into, Fetch::Failed)
        && answers(vault, b"a/b", into, Fetch::TooLong)
        && answers(vault, b"a", into, Fetch::Absent)
}

#[test]
fn a_vault_in_memory_reads(rt: HostRuntime) -> Result<(), Fail> {
    let mut vault = one_file(rt.alloc(), &[1])?;
    let mut into = Bytes::new(rt.alloc());
    assert!(rt; reads_and_fails(&mut vault, &mut into));
    Ok(())
}

/// Whether a vault with one file, whose fourth call is to fail, takes two writes over it, and then one of two.
fn writes_and_fails(vault: &mut MemVault) -> bool {
    two_writes(vault, b"a/b", b"1")
        && !two_writes(vault, b"c", b"2")
        && vault.file(b"a/b") == Some(b"1".as_slice())
        && vault.file(b"c") == Some(b"2".as_slice())
}

#[test]
fn a_vault_in_memory_writes(rt: HostRuntime) -> Result<(), Fail> {
    let mut vault = one_file(rt.alloc(), &[3])?;
    assert!(rt; writes_and_fails(&mut vault) && vault.seed() == 0);
    Ok(())
}

/// A file that is written, in the folder in which the tests run.
const PATH: &str = "lv_outside_test.tmp";

fn write_and_read<V: Vault>(vault: &mut V, into: &mut Bytes) -> bool {
    two_writes(vault, PATH.as_bytes(), b"longer than what follows")
        && two_writes(vault, PATH.as_bytes(), b"0123456789")
        && is_read(vault, PATH.as_bytes(), into, b"0123456789")
        && answers(vault, PATH.as_bytes(), into, Fetch::TooLong)
}

#[test]
fn files_of_the_system(rt: HostRuntime) {
    let mut vault = DirVault::new(&rt);
    let mut into = Bytes::new(rt.alloc());
    let is_there = write_and_read(&mut vault, &mut into);
    let is_removed = fs::remove_file(&rt, PATH).is_ok();
    let is_absent = answers(&mut vault, PATH.as_bytes(), &mut into, Fetch::Absent);
    assert!(rt; is_there && is_removed && is_absent);
}

/// Whether a folder, what lies under a file, a path that isn't UTF-8, and what lies under a folder that isn't there all fail.
fn paths_fail<V: Vault>(vault: &mut V, into: &mut Bytes) -> bool {
    answers(vault, b".", into, Fetch::Failed)
        && answers(vault, b"/dev/null/x", into, Fetch::Failed)
        && answers(vault, &[255], into, Fetch::Failed)
        && !two_writes(vault, b"lv_outside_absent.tmp/x", b"1")
}

#[test]
fn paths_without_a_file(rt: HostRuntime) {
    let mut vault = DirVault::new(&rt);
    let mut into = Bytes::new(rt.alloc());
    assert!(rt; paths_fail(&mut vault, &mut into));
}

/// The system's random bytes differ from vault to vault, and a vault's seed is the same at each call.
#[test]
fn a_seed_of_the_system(rt: HostRuntime) {
    let vault = DirVault::new(&rt);
    let seed = vault.seed();
    assert!(rt; seed == vault.seed() && seed != DirVault::new(&rt).seed());
}
