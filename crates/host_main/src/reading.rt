ghost use Rattle.std.specs.Prelude.{◌≡◌, ℕ, ◌≤◌, List, length, IfOk, IfErr, IsTrue, Some};
ghost use Rattle.session_script.specs.Playable.{IsPlayable};
ghost use Rattle.host_main.specs.Status.{most_session_bytes};
ghost use Rattle.lv_outside.specs.World.{LeavesFiles};
ghost use Rattle.session_script.specs.Script.{IsSessionOf};
ghost use Rattle.host_main.specs.GoesOn.{VaultGoesOn};
ghost use Rattle.host_main.specs.Render.{HasNoLater, IsRead, IsNoSession, IsUnread};

use crate::refusal::Refusal;
use lv_base::{Bytes, Text};
use lv_outside::{Fetch, Vault};
use session_script::{Session, first_later};
use std::alloc::Global;

/// The most bytes of a session: 16 MiB.
const MOST_SESSION_BYTES: u64 = 16_777_216;

/// Reads the session at a path of the vault.
pub fn read_session<V: Vault>(alloc: Global, path: &Text, vault: &mut V) -> Result<Session, Refusal>
    ensures ok { IfOk result (λ s. (bytes : List ℕ) × IsRead path.now (V.state vault.old) bytes s) }
    ensures playable { IfOk result IsPlayable }
    ensures err { IfErr result (IsUnread path.now (V.state vault.old) (V.state vault.new)) }
    ensures files { LeavesFiles (V.state vault.old) (V.state vault.new) }
    ensures goes_on { VaultGoesOn (V.state vault.old) (V.state vault.new) }
{
    let bytes = fetch(alloc, path, vault)?;
    let session = session_in(alloc, bytes.as_slice())?;
    Ok(session)
}

// The session that a script says, if each of its lines can be played so far.
fn session_in(alloc: Global, bytes: &[u8]) -> Result<Session, Refusal>
    requires { length bytes.now ≤ most_session_bytes }
    ensures session { IfOk result (IsSessionOf bytes.now) }
    ensures none_later { IfOk result (HasNoLater bytes.now) }
    ensures playable { IfOk result IsPlayable }
    ensures err { IfErr result (IsNoSession bytes.now) }
{
    let session = session_script::read(alloc, bytes)?;
    match first_later(bytes, &session) {
        None => Ok(session),
        Some(line) => Err(Refusal::Later(line)),
    }
}

// The whole file of a session.
fn fetch<V: Vault>(alloc: Global, path: &Text, vault: &mut V) -> Result<Bytes, Refusal>
    ensures short { IfOk result (λ bytes. length bytes ≤ most_session_bytes) }
    ensures ok { IfOk result (λ bytes. IsTrue (V.state vault.old).tells → (V.state vault.old).file path.now ≡ Some bytes) }
    ensures err { IfErr result (IsUnread path.now (V.state vault.old) (V.state vault.new)) }
    ensures files { LeavesFiles (V.state vault.old) (V.state vault.new) }
    ensures goes_on { VaultGoesOn (V.state vault.old) (V.state vault.new) }
{
    let mut bytes = Bytes::new(alloc);
    match vault.read(path.as_bytes(), MOST_SESSION_BYTES, &mut bytes) {
        Fetch::Got => Ok(bytes),
        Fetch::Absent => Err(Refusal::Missing),
        Fetch::TooLong => Err(Refusal::TooLong),
        Fetch::Failed => Err(Refusal::ReadFailed),
        Fetch::NoMemory => Err(Refusal::NoMemory),
    }
}
