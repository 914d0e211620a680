ghost use Rattle.std.specs.Prelude.{◌≡◌, ◌++◌, map, IfOk, OnOk, Some};
ghost use Rattle.session_load.specs.Names.{each_once, joined};
ghost use Rattle.session_states.specs.Restores.{path_in, paths_in};

use crate::restore::Restore;
use indexmap::IndexSet;
use lv_base::{NoMemory, Text};
use seeded_hash::SeededHash;
use std::alloc::Global;

pub(crate) type Paths = IndexSet<Text, SeededHash>;

/// The files that restores name, each once, in order of first use.
pub(crate) fn paths(alloc: Global, restores: &[Restore], seed: u128) -> Result<Paths, NoMemory>
    ensures { IfOk result (λ paths. paths.keys ≡ paths_in restores.now) }
{
    let mut paths = IndexSet::with_hasher(alloc, SeededHash::new(seed));
    add_paths(restores, &mut paths)?;
    Ok(paths)
}

fn add_paths(restores: &[Restore], paths: &mut Paths) -> Result<(), NoMemory>
    ensures { OnOk result (paths.new.keys ≡ paths.old.keys ++ each_once paths.old.keys (map path_in restores.now)) }
{
    for restore in restores {
        add_path(&restore.path, paths)?;
    }
    Ok(())
}

fn add_path(path: &Text, paths: &mut Paths) -> Result<(), NoMemory>
    ensures { OnOk result (paths.new.keys ≡ joined paths.old.keys (Some path.now)) }
{
    paths.insert(path.clone()?)?;
    Ok(())
}
