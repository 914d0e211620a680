ghost use Rattle.std.specs.Prelude.{◌≡◌, ◌<◌, ◌^◌, length, Ok, IfOk, IfErr};
ghost use Rattle.graph_order.specs.Setup.{IsReady};
ghost use Rattle.session_load.specs.Bundle.{IsLater};
ghost use Rattle.session_setup.specs.Loaded.{IsSound};
ghost use Rattle.session_states.specs.Restores.{restores_of};
ghost use Rattle.whole_setup.specs.Whole.{Completes, LoadsWholeBytes, LoadsWholeFile, IsCause, IsCounted};

use crate::fault::WholeFault;
use graph_order::Setup;
use lv_base::Text;
use lv_outside::Vault;
use plug_api::Codes;
use session_setup::Loaded;
use session_states::states;
use std::alloc::Global;
use urid_map::Urids;

/// The session in the file at a path of the vault, with all that it takes to be played.
///
/// The order of work, and so of faults, is that of `session_setup::load`, and then that of `session_states::states`: the state files
/// in order of first use, whose keys and types get numbers. After a fault of theirs the first of the URIs may have numbers.
/// `NoMemory` may come at any time.
pub fn load<V: Vault, C: Codes>(
    alloc: Global,
    path: &Text,
    vault: &mut V,
    codes: &C,
    urids: &mut Urids,
) -> Result<Setup, WholeFault>
    ensures ok { IfOk result (λ setup. LoadsWholeFile (V.state vault.old) (C.meaning codes.now).text path.now urids.old (Ok (setup, urids.new))) }
    ensures ready { IfOk result IsReady }
    ensures restores { IfOk result (λ setup. length setup.states ≡ length (restores_of setup.session)) }
    ensures err { IfErr result (IsCause (LoadsWholeFile (V.state vault.old) (C.meaning codes.now).text path.now urids.old)) }
    ensures counted { IfErr result (IsCounted (V.state vault.old) (V.state vault.new)) }
    ensures later { IsLater (V.state vault.old) (V.state vault.new) }
{
    let loaded = session_setup::load(alloc, path, vault, codes)?;
    complete(alloc, loaded, vault, urids)
}

/// The same of a session file with these bytes.
pub fn load_bytes<V: Vault, C: Codes>(
    alloc: Global,
    bytes: &[u8],
    vault: &mut V,
    codes: &C,
    urids: &mut Urids,
) -> Result<Setup, WholeFault>
    requires { length bytes.now < 2 ^ 32 }
    ensures ok { IfOk result (λ setup. LoadsWholeBytes (V.state vault.old) (C.meaning codes.now).text bytes.now urids.old (Ok (setup, urids.new))) }
    ensures ready { IfOk result IsReady }
    ensures restores { IfOk result (λ setup. length setup.states ≡ length (restores_of setup.session)) }
    ensures err { IfErr result (IsCause (LoadsWholeBytes (V.state vault.old) (C.meaning codes.now).text bytes.now urids.old)) }
    ensures counted { IfErr result (IsCounted (V.state vault.old) (V.state vault.new)) }
    ensures later { IsLater (V.state vault.old) (V.state vault.new) }
{
    let loaded = session_setup::load_bytes(alloc, bytes, vault, codes)?;
    complete(alloc, loaded, vault, urids)
}

/// A loaded session with its states.
fn complete<V: Vault>(
    alloc: Global,
    loaded: Loaded,
    vault: &mut V,
    urids: &mut Urids,
) -> Result<Setup, WholeFault>
    requires { IsSound loaded }
    ensures ok { IfOk result (λ setup. Completes (V.state vault.old) urids.old loaded (Ok (setup, urids.new))) }
    ensures ready { IfOk result IsReady }
    ensures restores { IfOk result (λ setup. length setup.states ≡ length (restores_of setup.session)) }
    ensures err { IfErr result (IsCause (Completes (V.state vault.old) urids.old loaded)) }
    ensures counted { IfErr result (IsCounted (V.state vault.old) (V.state vault.new)) }
    ensures later { IsLater (V.state vault.old) (V.state vault.new) }
{
    let states = states(alloc, &loaded.session, vault, urids)?;
    Ok(loaded.with_states(states))
}
