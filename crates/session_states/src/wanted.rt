ghost use Rattle.std.specs.Prelude.{◌≡◌, ◌++◌, option_to_list, IfOk, OnOk};
ghost use Rattle.std.specs.List.{filter_map};
ghost use Rattle.session_states.specs.Restores.{uri_of, restore_of, restores_of};

use crate::restore::Restore;
use lv_base::{Items, NoMemory, Text};
use session_script::{Action, Deed, Inst, Session};
use std::alloc::Global;

/// What the actions of a session restore, in their order.
pub(crate) fn restores(alloc: Global, session: &Session) -> Result<Items<Restore>, NoMemory>
    ensures { IfOk result (λ restores. restores ≡ restores_of session.now) }
{
    let mut restores = Items::new(alloc);
    add_restores(
        alloc,
        session.insts.as_slice(),
        session.actions.as_slice(),
        &mut restores,
    )?;
    Ok(restores)
}

fn add_restores(
    alloc: Global,
    insts: &[Inst],
    actions: &[Action],
    restores: &mut Items<Restore>,
) -> Result<(), NoMemory>
    ensures { OnOk result (restores.new ≡ restores.old ++ filter_map (restore_of insts.now) actions.now) }
{
    for action in actions {
        add_restore(alloc, insts, action, restores)?;
    }
    Ok(())
}

fn add_restore(
    alloc: Global,
    insts: &[Inst],
    action: &Action,
    restores: &mut Items<Restore>,
) -> Result<(), NoMemory>
    ensures { OnOk result (restores.new ≡ restores.old ++ option_to_list (restore_of insts.now action.now)) }
{
    match restore_of(alloc, insts, action)? {
        Some(restore) => Ok(restores.push(restore)?),
        None => Ok(()),
    }
}

/// What an action restores, if it does.
fn restore_of(alloc: Global, insts: &[Inst], action: &Action) -> Result<Option<Restore>, NoMemory>
    ensures { IfOk result (λ restore. restore ≡ restore_of insts.now action.now) }
{
    match &action.deed {
        Deed::Restore { path, place } => {
            let path = path.clone()?;
            let uri = uri_of(alloc, insts, action.inst)?;
            Ok(Some(Restore {
                path,
                place: *place,
                uri,
            }))
        }
        _ => Ok(None),
    }
}

/// The URI of an instance's plug-in, the empty text where there is no such instance.
fn uri_of(alloc: Global, insts: &[Inst], inst: u32) -> Result<Text, NoMemory>
    ensures { IfOk result (λ uri. uri ≡ uri_of insts.now inst) }
{
    match insts.get(inst as usize) {
        Some(inst) => Ok(inst.uri.clone()?),
        None => Text::from_str(alloc, ""),
    }
}
