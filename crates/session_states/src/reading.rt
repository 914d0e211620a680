ghost use Rattle.std.specs.Prelude.{◌≡◌, ◌++◌, ◌∷◌, [], length, map, IfOk, IfErr, OnOk};
ghost use Rattle.session_load.specs.Bundle.{IsLater};
ghost use Rattle.session_states.specs.Answer.{props_at, restored, states_at, paths_of, HasStates, HasNoStates, HasOneAnswer, HasSomeAnswer};
ghost use Rattle.session_states.specs.Files.{GiveStates, StopsAt};

use crate::fault::StatesFault;
use crate::one_file::StateFile;
use crate::paths::{Paths, paths};
use crate::restore::Restore;
use crate::wanted::restores;
use lv_base::{Items, NoMemory, Text};
use lv_outside::Vault;
use session_script::Session;
use state_file::Saved;
use state_store::{Props, Shelf};
use std::alloc::Global;
use urid_map::Urids;

/// The properties that the actions of a session restore, in order of the actions, from state files of the vault.
///
/// The files are read one after the other, in order of first use. The base IRI of a file is `file:///state/` and its number, from 0.
/// Its keys and types get numbers, in order of its states and their triples, of each the key and then the type.
///
/// The first cause ends all. A file is missing, the vault fails, it has more than `MOST_STATE_FILE_BYTES` bytes, or it is no Turtle
/// document. Then come the rules of its states, each for all states before the next; `UridFull`; that there is a state at each place
/// that is restored from it; and that each of these is a state of the instance's plug-in. `NoMemory` may come at any time. After a
/// fault the first of the URIs may have numbers.
pub fn states<V: Vault>(
    alloc: Global,
    session: &Session,
    vault: &mut V,
    urids: &mut Urids,
) -> Result<Items<Props>, StatesFault>
    ensures ok { IfOk result (λ states. HasStates (V.state vault.old) session.now urids.old states urids.new) }
    ensures err { IfErr result (HasNoStates (V.state vault.old) (V.state vault.new) session.now urids.old) }
    ensures later { IsLater (V.state vault.old) (V.state vault.new) }
{
    let restores = restores(alloc, session)?;
    let restores = restores.as_slice();
    let paths = paths(alloc, restores, vault.seed())?;
    let files = read_files(alloc, &paths, restores, vault, urids)?;
    Ok(restored(alloc, &paths, files.as_slice(), restores)?)
}

/// A law, and no step of a program: the files of a known vault give a session at most one list of states, with the URIs that then have
/// numbers, or first cause, and not both. A read that failed and want of memory aren't theirs.
pub fn one_answer()
    ensures { HasOneAnswer }
{}

/// A law, and no step of a program: the files of a known vault give a session its states or a first cause.
pub fn some_answer()
    ensures { HasSomeAnswer }
{}

/// The states of the files, file by file.
fn read_files<V: Vault>(
    alloc: Global,
    paths: &Paths,
    restores: &[Restore],
    vault: &mut V,
    urids: &mut Urids,
) -> Result<Items<Items<Saved>>, StatesFault>
    ensures ok { IfOk result (λ files. GiveStates (V.state vault.old)
        restores.now paths.now.keys urids.old (length paths.now.keys) files urids.new) }
    ensures err { IfErr result (StopsAt (V.state vault.old) (V.state vault.new) restores.now paths.now.keys urids.old) }
    ensures later { IsLater (V.state vault.old) (V.state vault.new) }
{
    let mut files = Items::new(alloc);
    add_files(alloc, paths.as_slice(), restores, vault, urids, &mut files)?;
    Ok(files)
}

/// Adds the states of the files at these paths.
fn add_files<V: Vault>(
    alloc: Global,
    paths: &[Text],
    restores: &[Restore],
    vault: &mut V,
    urids: &mut Urids,
    files: &mut Items<Items<Saved>>,
) -> Result<(), StatesFault>
    requires { files.old ≡ [] }
    ensures ok { OnOk result (GiveStates (V.state vault.old) restores.now paths.now urids.old (length paths.now) files.new urids.new) }
    ensures err { IfErr result (StopsAt (V.state vault.old) (V.state vault.new) restores.now paths.now urids.old) }
    ensures later { IsLater (V.state vault.old) (V.state vault.new) }
{
    for (number, path) in paths.iter().enumerate() {
        let file = StateFile {
            alloc,
            number,
            path,
        };
        push(files, file.read_states(vault, restores, urids)?)?;
    }
    Ok(())
}

fn push(files: &mut Items<Items<Saved>>, saves: Items<Saved>) -> Result<(), NoMemory>
    ensures { OnOk result (files.new ≡ files.old ++ saves ∷ []) }
{
    files.push(saves)?;
    Ok(())
}

/// The properties of each restore, from the states of the files at these paths.
fn restored(
    alloc: Global,
    paths: &Paths,
    files: &[Items<Saved>],
    restores: &[Restore],
) -> Result<Items<Props>, NoMemory>
    ensures { IfOk result (λ states. states ≡ map (restored paths.now.keys files.now) restores.now) }
{
    let mut states = Items::new(alloc);
    for restore in restores {
        let saves = states_at(paths, files, &restore.path);
        states.push(props_at(alloc, saves, restore.place)?)?;
    }
    Ok(states)
}

/// The states of the file at a path.
fn states_at<'a>(paths: &Paths, files: &'a [Items<Saved>], path: &Text) -> &'a [Saved]
    ensures { result.now ≡ states_at paths.now.keys files.now path.now }
{
    match paths.get_index_of(path) {
        Some(number) => match files.get(number) {
            Some(saves) => saves.as_slice(),
            None => &[],
        },
        None => &[],
    }
}

/// A copy of the properties of the state at a place; none where there is no such state.
fn props_at(alloc: Global, saves: &[Saved], place: u32) -> Result<Props, NoMemory>
    ensures { IfOk result (λ props. props ≡ props_at saves.now place) }
{
    match saves.get(place as usize) {
        Some(saved) => saved.props.copy(),
        None => Shelf::with_room(alloc, 0)?.finish(),
    }
}
