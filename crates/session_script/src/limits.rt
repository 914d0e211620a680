ghost use Rattle.std.specs.Prelude.{◌≡◌, ◌<◌, ◌≤◌, ◌^◌, length, filter};
ghost use Rattle.session_script.specs.Limits as spec;

use crate::fault::Limit;
use crate::session::{Action, Deed, Session};

/// The first limit that a session passes, with the number that passes it.
pub(crate) fn passed(session: &Session) -> Option<(Limit, u64)>
    requires block { session.now.block ≤ 4096 }
    requires blocks { session.now.blocks ≤ 65536 }
    ensures { result ≡ spec.passed session.now }
{
    if session.bundles.len() > 64 {
        return Some((Limit::Bundles, session.bundles.len() as u64));
    }
    if session.insts.len() > 32 {
        return Some((Limit::Instances, session.insts.len() as u64));
    }
    if session.cables.len() > 256 {
        return Some((Limit::Cables, session.cables.len() as u64));
    }
    if session.outs.len() > 8 {
        return Some((Limit::Outputs, session.outs.len() as u64));
    }
    if session.actions.len() > 1024 {
        return Some((Limit::Actions, session.actions.len() as u64));
    }
    let saves = saves_in(session.actions.as_slice());
    if saves > 128 {
        return Some((Limit::Saves, saves as u64));
    }
    let samples = u64::from(session.block) * u64::from(session.blocks) * session.outs.len() as u64;
    if samples > 33_554_432 {
        return Some((Limit::Samples, samples));
    }
    None
}

fn saves_in(actions: &[Action]) -> usize
    ensures { result ≡ length (filter spec.is_save actions.now) }
{
    actions.iter().filter(|action| is_save(*action)).count()
}

fn is_save(action: &Action) -> bool
    ensures { result ≡ spec.is_save action.now }
{
    matches!(action.deed, Deed::Save)
}
