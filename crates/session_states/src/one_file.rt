ghost use Rattle.std.specs.Prelude.{◌≡◌, [], filter, IfOk, IfErr, OnOk, None};
ghost use Rattle.std.specs.List.{list_all};
ghost use Rattle.session_load.specs.Bundle.{IsLater, cause, IsMisread};
ghost use Rattle.turtle_document.specs.Answer.Outcome.{document};
ghost use Rattle.session_states.specs.File.{base_of, Reads, HasRows, IsUnread, GivesStates, IsRefused};
ghost use Rattle.session_states.specs.Rules.{is_from, restores_from, is_there, is_fit, broken_by, IsBroken, fault_of, ArePassed, IsCause};
ghost use Rattle.session_states.specs.declared.fault.StatesFault.TheVariants.{Broken};

use crate::fault::{Rule, StatesFault};
use crate::restore::Restore;
use lv_base::{Bytes, Items, NoMemory, Text};
use lv_outside::{Fetch, Vault};
use session_load::LoadFault;
use state_file::{Saved, StateFault};
use std::alloc::Global;
use triple_store::Store;
use turtle_read::TurtleFault;
use urid_map::Urids;

/// The most bytes of a state file: 128 MiB.
pub const MOST_STATE_FILE_BYTES: u64 = 134_217_728;

/// A state file of a session.
#[derive(Clone, Copy)]
pub(crate) struct StateFile<'a> {
    pub(crate) alloc: Global,
    /// From 0, in order of first use.
    pub(crate) number: usize,
    /// In the vault.
    pub(crate) path: &'a Text,
}

impl<'a> StateFile<'a> {
    /// The states of the file, once they are judged, and all that is restored from it.
    pub(crate) fn read_states<V: Vault>(
        &self,
        vault: &mut V,
        restores: &[Restore],
        urids: &mut Urids,
    ) -> Result<Items<Saved>, StatesFault>
        ensures ok { IfOk result (λ saves. GivesStates (V.state vault.old)
            restores.now self.now.number self.now.path.now urids.old saves urids.new) }
        ensures err { IfErr result (IsRefused (V.state vault.old) (V.state vault.new)
            restores.now self.now.number self.now.path.now urids.old) }
        ensures later { IsLater (V.state vault.old) (V.state vault.new) }
    {
        let mut store = Store::with_seed(self.alloc, vault.seed());
        self.read_rows(vault, &mut store)?;
        self.judge(&store, restores, urids)
    }

    /// Adds the triples of the file to a store without rows.
    fn read_rows<V: Vault>(&self, vault: &mut V, store: &mut Store) -> Result<(), LoadFault>
        requires { store.old ≡ [] }
        ensures ok { OnOk result (HasRows (V.state vault.old) self.now.number self.now.path.now store.new) }
        ensures err { IfErr result (IsUnread (V.state vault.old) (V.state vault.new) self.now.number self.now.path.now) }
        ensures later { IsLater (V.state vault.old) (V.state vault.new) }
    {
        let path = self.path()?;
        let mut bytes = Bytes::new(self.alloc);
        match vault.read(self.path.as_bytes(), MOST_STATE_FILE_BYTES, &mut bytes) {
            Fetch::Got => self.read_document(path, bytes.as_slice(), store),
            Fetch::Absent => Err(LoadFault::Missing(path)),
            Fetch::TooLong => Err(LoadFault::TooLong(path)),
            Fetch::Failed => Err(LoadFault::ReadFailed(path)),
            Fetch::NoMemory => Err(LoadFault::NoMemory),
        }
    }

    /// Adds the triples of the file, which has these bytes, to a store without rows.
    fn read_document(&self, path: Text, bytes: &[u8], store: &mut Store) -> Result<(), LoadFault>
        requires { store.old ≡ [] }
        ensures ok { OnOk result (Reads self.now.number bytes.now (document store.new)) }
        ensures err { IfErr result (IsMisread path (Reads self.now.number bytes.now)) }
    {
        let base = self.base()?;
        match turtle_read::read(self.alloc, &base, bytes, store) {
            Ok(_) => Ok(()),
            Err(fault) => Err(cause(path, fault)),
        }
    }

    /// A copy of the path.
    fn path(&self) -> Result<Text, NoMemory>
        ensures { IfOk result (λ path. path ≡ self.now.path.now) }
    {
        Ok(self.path.clone()?)
    }

    /// The IRI against which the file's relative IRIs are resolved.
    fn base(&self) -> Result<Text, NoMemory>
        ensures { IfOk result (λ base. base ≡ base_of self.now.number) }
    {
        let number = self.number;
        let text = format!(in self.alloc; "file:///state/{number}")?;
        Text::from_str(self.alloc, &text)
    }

    /// The states that these triples say, once they and all that is restored are judged.
    fn judge(
        &self,
        store: &Store,
        restores: &[Restore],
        urids: &mut Urids,
    ) -> Result<Items<Saved>, StatesFault>
        ensures ok { IfOk result (λ saves. ArePassed self.now.path.now restores.now store.now urids.old saves urids.new) }
        ensures err { IfErr result (IsCause self.now.path.now restores.now store.now urids.old) }
    {
        match state_file::read(self.alloc, store, urids) {
            Ok(saves) => {
                // There are numbers for all of them.
                urids.held();
                self.judge_restores(Items::from_vec(saves), restores)
            }
            Err(fault) => Err(fault_of(self.path()?, fault)),
        }
    }

    /// The states, unless a rule for what is restored from them is broken.
    fn judge_restores(
        &self,
        saves: Items<Saved>,
        restores: &[Restore],
    ) -> Result<Items<Saved>, StatesFault>
        ensures ok { IfOk result (λ given. (given ≡ saves) × (broken_by saves (restores_from self.now.path.now restores.now) ≡ None)) }
        ensures err { IfErr result (IsBroken self.now.path.now (broken_by saves (restores_from self.now.path.now restores.now))) }
    {
        match broken_by(saves.as_slice(), self.path, restores) {
            None => Ok(saves),
            Some(rule) => Err(StatesFault::Broken {
                path: self.path()?,
                rule,
            }),
        }
    }
}

/// The first rule that the restores from the file at a path break, where these are its states.
#[tactic(auto, unfolding(crate::specs::Rules::broken_by))]
fn broken_by(saves: &[Saved], path: &Text, restores: &[Restore]) -> Option<Rule>
    ensures { result ≡ broken_by saves.now (restores_from path.now restores.now) }
{
    if !are_there(saves, path, restores) {
        return Some(Rule::Count);
    }
    if !are_fit(saves, path, restores) {
        return Some(Rule::Plugin);
    }
    None
}

fn are_there(saves: &[Saved], path: &Text, restores: &[Restore]) -> bool
    ensures { result ≡ list_all (is_there saves.now) (filter (is_from path.now) restores.now) }
{
    let mut from = restores.iter().filter(|restore| is_from(path, restore));
    from.all(|restore| is_there(saves, restore))
}

fn are_fit(saves: &[Saved], path: &Text, restores: &[Restore]) -> bool
    ensures { result ≡ list_all (is_fit saves.now) (filter (is_from path.now) restores.now) }
{
    let mut from = restores.iter().filter(|restore| is_from(path, restore));
    from.all(|restore| is_fit(saves, restore))
}

fn is_from(path: &Text, restore: &Restore) -> bool
    ensures { result ≡ is_from path.now restore.now }
{
    *path == restore.path
}

/// Whether there is a state at the place that is restored.
fn is_there(saves: &[Saved], restore: &Restore) -> bool
    ensures { result ≡ is_there saves.now restore.now }
{
    saves.get(restore.place as usize).is_some()
}

/// Whether that state is one of the instance's plug-in.
fn is_fit(saves: &[Saved], restore: &Restore) -> bool
    ensures { result ≡ is_fit saves.now restore.now }
{
    match saves.get(restore.place as usize) {
        Some(saved) => restore.uri == saved.uri,
        None => false,
    }
}

/// How a fault of states is told of the file at a path.
fn fault_of(path: Text, fault: StateFault) -> StatesFault
    ensures { result ≡ fault_of path fault }
{
    match fault {
        StateFault::Shape => broken(path, Rule::Shape),
        StateFault::Flags => broken(path, Rule::Flags),
        StateFault::Bytes => broken(path, Rule::Bytes),
        StateFault::Size => broken(path, Rule::Size),
        StateFault::UridFull => StatesFault::UridFull,
        StateFault::NoMemory => StatesFault::Load(LoadFault::NoMemory),
    }
}

fn broken(path: Text, rule: Rule) -> StatesFault
    ensures { result ≡ Broken path rule }
{
    StatesFault::Broken { path, rule }
}

/// Why the file at a path, which is no document, can't be read.
fn cause(path: Text, fault: TurtleFault) -> LoadFault
    ensures { result ≡ cause path fault }
{
    match fault {
        TurtleFault::NoMemory => LoadFault::NoMemory,
        fault => LoadFault::Turtle { path, fault },
    }
}
