ghost use Rattle.std.specs.Prelude.{◌≡◌, ◌≤◌, [], length, IfOk, IfErr, OnOk};
ghost use Rattle.session_load.specs.Bundle.{IsLater};
ghost use Rattle.session_setup.specs.Faults.{IsCause, IsCounted};
ghost use Rattle.session_setup.specs.Loading.{ReadsAll};

use crate::fault::SetupFault;
use lv_base::{Items, Text};
use lv_outside::Vault;
use session_load::bundle;
use std::alloc::Global;
use triple_store::Store;

/// The triples of the bundles in these folders, in order. They are numbered from 0.
pub(crate) fn read_bundles<V: Vault>(
    alloc: Global,
    folders: &[Text],
    vault: &mut V,
) -> Result<Items<Store>, SetupFault>
    requires { length folders.now ≤ 64 }
    ensures ok { IfOk result (λ bundles. ReadsAll (V.state vault.old) folders.now (Ok bundles)) }
    ensures err { IfErr result (IsCause (ReadsAll (V.state vault.old) folders.now)) }
    ensures counted { IfErr result (IsCounted (V.state vault.old) (V.state vault.new)) }
    ensures later { IsLater (V.state vault.old) (V.state vault.new) }
{
    let mut bundles = Items::new(alloc);
    add_bundles(alloc, folders, vault, &mut bundles)?;
    Ok(bundles)
}

fn add_bundles<V: Vault>(
    alloc: Global,
    folders: &[Text],
    vault: &mut V,
    bundles: &mut Items<Store>,
) -> Result<(), SetupFault>
    requires few { length folders.now ≤ 64 }
    requires none { bundles.old ≡ [] }
    ensures ok { OnOk result (ReadsAll (V.state vault.old) folders.now (Ok bundles.new)) }
    ensures err { IfErr result (IsCause (ReadsAll (V.state vault.old) folders.now)) }
    ensures counted { IfErr result (IsCounted (V.state vault.old) (V.state vault.new)) }
    ensures later { IsLater (V.state vault.old) (V.state vault.new) }
{
    for (number, folder) in folders.iter().enumerate() {
        let rows = bundle(alloc, folder, number as u32, vault)?;
        bundles.push(rows)?;
    }
    Ok(())
}
