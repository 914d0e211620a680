ghost use Rattle.std.specs.Prelude.{◌≡◌, ℕ, ◌<◌, ◌≤◌, ◌^◌, length, IfOk, IfErr};
ghost use Rattle.session_load.specs.Bundle.{IsLater};
ghost use Rattle.session_script.specs.Valid.{IsValid};
ghost use Rattle.session_setup.specs.Loaded.{IsSound};
ghost use Rattle.session_setup.specs.Faults.{Told, IsCause, IsCounted};
ghost use Rattle.session_setup.specs.Loading.{Fetches, Says, loaded, Arranges, LoadsSession, LoadsBytes, LoadsFile};

use crate::bundles::read_bundles;
use crate::declaring::declare_all;
use crate::fault::SetupFault;
use crate::loaded::Loaded;
use crate::planning::plan_of;
use graph_order::Plan;
use lv_base::{Bytes, Items, Text};
use lv_outside::{Fetch, Vault};
use plug_api::Codes;
use plugin_decl::Decl;
use session_load::{LoadFault, MOST_FILE_BYTES};
use session_script::Session;
use std::alloc::Global;
use triple_store::Store;

/// The session in the file at a path of the vault, with a declaration for each instance and a plan.
///
/// The order of work, and so of faults, is: the file, of at most `MOST_FILE_BYTES` bytes; its lines; its limits; the bundles in order,
/// each file read and then its Turtle; the declarations of the instances in order; the graph. `NoMemory` may come at any time.
///
/// Of several bundles that declare a plug-in the one with the greatest version counts, and of several with that version the first. A
/// plug-in that no bundle declares has the declaration that comes with its code.
pub fn load<V: Vault, C: Codes>(
    alloc: Global,
    path: &Text,
    vault: &mut V,
    codes: &C,
) -> Result<Loaded, SetupFault>
    ensures ok { IfOk result (λ made. LoadsFile (V.state vault.old) (C.meaning codes.now).text path.now (Ok made)) }
    ensures sound { IfOk result IsSound }
    ensures err { IfErr result (IsCause (LoadsFile (V.state vault.old) (C.meaning codes.now).text path.now)) }
    ensures counted { IfErr result (IsCounted (V.state vault.old) (V.state vault.new)) }
    ensures later { IsLater (V.state vault.old) (V.state vault.new) }
{
    let bytes = fetch(alloc, path, vault)?;
    load_bytes(alloc, bytes.as_slice(), vault, codes)
}

/// The same of a session file with these bytes.
pub fn load_bytes<V: Vault, C: Codes>(
    alloc: Global,
    bytes: &[u8],
    vault: &mut V,
    codes: &C,
) -> Result<Loaded, SetupFault>
    requires { length bytes.now < 2 ^ 32 }
    ensures ok { IfOk result (λ made. LoadsBytes (V.state vault.old) (C.meaning codes.now).text bytes.now (Ok made)) }
    ensures sound { IfOk result IsSound }
    ensures err { IfErr result (IsCause (LoadsBytes (V.state vault.old) (C.meaning codes.now).text bytes.now)) }
    ensures counted { IfErr result (IsCounted (V.state vault.old) (V.state vault.new)) }
    ensures later { IsLater (V.state vault.old) (V.state vault.new) }
{
    let session = session_of(alloc, bytes)?;
    load_session(alloc, session, vault, codes)
}

/// The bytes of a file.
fn fetch<V: Vault>(alloc: Global, path: &Text, vault: &mut V) -> Result<Bytes, SetupFault>
    ensures ok { IfOk result (λ bytes. Told (Fetches (V.state vault.old) path.now) (Ok bytes)) }
    ensures short { IfOk result (λ bytes. length bytes ≤ MOST_FILE_BYTES) }
    ensures err { IfErr result (IsCause (Told (Fetches (V.state vault.old) path.now))) }
    ensures counted { IfErr result (IsCounted (V.state vault.old) (V.state vault.new)) }
    ensures later { IsLater (V.state vault.old) (V.state vault.new) }
{
    let named = path.clone()?;
    let mut bytes = Bytes::new(alloc);
    match vault.read(path.as_bytes(), MOST_FILE_BYTES, &mut bytes) {
        Fetch::Got => Ok(bytes),
        Fetch::Absent => Err(SetupFault::Load(LoadFault::Missing(named))),
        Fetch::TooLong => Err(SetupFault::Load(LoadFault::TooLong(named))),
        Fetch::Failed => Err(SetupFault::Load(LoadFault::ReadFailed(named))),
        Fetch::NoMemory => Err(SetupFault::Load(LoadFault::NoMemory)),
    }
}

/// The session that bytes say.
fn session_of(alloc: Global, bytes: &[u8]) -> Result<Session, SetupFault>
    requires { length bytes.now < 2 ^ 32 }
    ensures ok { IfOk result (λ session. Says bytes.now (Ok session)) }
    ensures valid { IfOk result IsValid }
    ensures err { IfErr result (IsCause (Says bytes.now)) }
{
    let session = session_script::read(alloc, bytes)?;
    Ok(session)
}

/// A session with its declarations and its plan.
fn load_session<V: Vault, C: Codes>(
    alloc: Global,
    session: Session,
    vault: &mut V,
    codes: &C,
) -> Result<Loaded, SetupFault>
    requires { IsValid session }
    ensures ok { IfOk result (λ made. LoadsSession (V.state vault.old) (C.meaning codes.now).text session (Ok made)) }
    ensures sound { IfOk result IsSound }
    ensures err { IfErr result (IsCause (LoadsSession (V.state vault.old) (C.meaning codes.now).text session)) }
    ensures counted { IfErr result (IsCounted (V.state vault.old) (V.state vault.new)) }
    ensures later { IsLater (V.state vault.old) (V.state vault.new) }
{
    let Arrangement { decls, plan } = arrange(alloc, &session, vault, codes)?;
    Ok(Loaded {
        session,
        decls,
        plan,
    })
}

/// What a session has besides its lines.
#[derive(Drop)]
struct Arrangement {
    decls: Items<Decl>,
    plan: Plan,
}

/// The declarations and the plan of a session.
fn arrange<V: Vault, C: Codes>(
    alloc: Global,
    session: &Session,
    vault: &mut V,
    codes: &C,
) -> Result<Arrangement, SetupFault>
    requires { IsValid session.now }
    ensures ok { IfOk result (λ made. LoadsSession (V.state vault.old) (C.meaning codes.now).text session.now (Ok (loaded session.now made.decls made.plan))) }
    ensures sound { IfOk result (λ made. IsSound (loaded session.now made.decls made.plan)) }
    ensures err { IfErr result (IsCause (LoadsSession (V.state vault.old) (C.meaning codes.now).text session.now)) }
    ensures counted { IfErr result (IsCounted (V.state vault.old) (V.state vault.new)) }
    ensures later { IsLater (V.state vault.old) (V.state vault.new) }
{
    let bundles = read_bundles(alloc, session.bundles.as_slice(), vault)?;
    arrange_over(alloc, session, bundles.as_slice(), codes)
}

/// The declarations and the plan of a session whose bundles have these triples.
fn arrange_over<C: Codes>(
    alloc: Global,
    session: &Session,
    bundles: &[Store],
    codes: &C,
) -> Result<Arrangement, SetupFault>
    requires { IsValid session.now }
    ensures ok { IfOk result (λ made. Arranges (C.meaning codes.now).text bundles.now session.now (Ok (loaded session.now made.decls made.plan))) }
    ensures sound { IfOk result (λ made. IsSound (loaded session.now made.decls made.plan)) }
    ensures err { IfErr result (IsCause (Arranges (C.meaning codes.now).text bundles.now session.now)) }
{
    let decls = declare_all(
        alloc,
        session.insts.as_slice(),
        bundles,
        codes,
        session.block,
    )?;
    let plan = plan_of(alloc, session, decls.as_slice())?;
    Ok(Arrangement { decls, plan })
}
