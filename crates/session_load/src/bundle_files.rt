ghost use Rattle.std.specs.Prelude.{◌≡◌, ◌≤◌, ℕ, List, [], true, All, IfOk, IfErr, OnOk, IsTrue};
ghost use Rattle.lv_outside.specs.World.{LeavesFiles};
ghost use Rattle.triple_store.specs.declared.term.Triple.{Triple};
ghost use Rattle.turtle_document.specs.Answer.Outcome.{document};
ghost use Rattle.turtle_document.specs.Numbers.{HaveFewNumbers};
ghost use Rattle.session_load.specs.Names.{manifest, path_of, file_iri, is_inside, files_named};
ghost use Rattle.session_load.specs.OneAnswer.{HasOneAnswer, HasSomeAnswer};
ghost use Rattle.session_load.specs.Bundle.{IsLater, Adds, AddAll, Reads, cause, IsMisread, IsRefused, StopsAt, place, HasRows, IsBundle, IsUnloaded};

use crate::fault::LoadFault;
use crate::file_name::FileName;
use crate::named_files::{files_named, folder_iri};
use lv_base::{Bytes, NoMemory, Text};
use lv_outside::{Fetch, Vault};
use std::alloc::Global;
use triple_store::Store;
use turtle_read::{TurtleFault, read};

/// The most bytes of a Turtle file: 16 MiB.
pub const MOST_FILE_BYTES: u64 = 16_777_216;

/// The triples of the bundle in a folder of the vault: those of its `manifest.ttl`, then those of the files that the manifest
/// names, in order of its triples, each once, all in one graph.
///
/// A triple `s rdfs:seeAlso iri` of the manifest names a file where the manifest also says that `s` is an `lv2:Plugin`, and where
/// the IRI is that of a file within the bundle: it has neither a query nor a fragment, and what stands in it after the bundle's
/// folder is, its escapes decoded (RFC 3986, section 2.1), UTF-8 without a zero byte, and a path of which no segment is empty, `.`
/// or `..`. Every other triple is passed over, so that no file outside the folder is read. What the files so named name themselves
/// isn't followed, and the manifest isn't read again.
///
/// A file's base IRI is `file:///bundle/`, the bundle's number, from 0, `/` and the file's name as it is. The first file that can't
/// be read ends all: it is missing, the vault fails, it has more than `MOST_FILE_BYTES` bytes, or it is no Turtle document.
/// `NoMemory` may come at any time.
pub fn bundle<V: Vault>(
    alloc: Global,
    path: &Text,
    number: u32,
    vault: &mut V,
) -> Result<Store, LoadFault>
    ensures ok { IfOk result (IsBundle (V.state vault.old) path.now number) }
    ensures err { IfErr result (IsUnloaded (V.state vault.old) (V.state vault.new) path.now number) }
    ensures files { LeavesFiles (V.state vault.old) (V.state vault.new) }
    ensures known { IsTrue (V.state vault.old).tells → IsTrue (V.state vault.new).tells }
    ensures later { (V.state vault.old).faults ≤ (V.state vault.new).faults }
    ensures absences { (V.state vault.old).absences ≤ (V.state vault.new).absences }
    ensures longs { (V.state vault.old).longs ≤ (V.state vault.new).longs }
{
    let folder = Folder {
        alloc,
        path,
        number,
    };
    let mut store = Store::with_seed(alloc, vault.seed());
    folder.read_bundle(vault, &mut store)?;
    Ok(store)
}

/// A law, and no step of a program: no file that a manifest names lies outside the bundle.
pub fn stays_inside()
    ensures { (number : ℕ) (rows : List Triple) → All (λ name. is_inside name ≡ true) (files_named number rows) }
{}

/// A law, and no step of a program: the files of a known vault give a bundle at most one list of rows or first fault, and not both.
/// A read that failed and want of memory aren't theirs.
pub fn one_answer()
    ensures { HasOneAnswer }
{}

/// A law, and no step of a program: the files of a known vault give a bundle a list of rows or a first fault.
pub fn some_answer()
    ensures { HasSomeAnswer }
{}

/// The folder of a bundle.
#[derive(Clone, Copy)]
struct Folder<'a> {
    alloc: Global,
    /// In the vault.
    path: &'a Text,
    /// The bundle's number.
    number: u32,
}

impl<'a> Folder<'a> {
    /// Reads the manifest, and then the files that it names.
    fn read_bundle<V: Vault>(&self, vault: &mut V, store: &mut Store) -> Result<(), LoadFault>
        requires { store.old ≡ [] }
        ensures ok { OnOk result (HasRows (V.state vault.old) (place self.now.number self.now.path.now) store.new) }
        ensures err { IfErr result (IsUnloaded (V.state vault.old)
            (V.state vault.new) self.now.path.now self.now.number) }
        ensures later { IsLater (V.state vault.old) (V.state vault.new) }
    {
        self.read_manifest(vault, store)?;
        let files = files_named(self.alloc, self.number, store)?;
        let named = &files.as_slice()[1..];
        self.read_files(named, vault, store)
    }

    fn read_manifest<V: Vault>(&self, vault: &mut V, store: &mut Store) -> Result<(), LoadFault>
        requires { HaveFewNumbers store.old }
        ensures ok { OnOk result (Adds (V.state vault.old)
            (place self.now.number self.now.path.now) manifest store.old store.new) }
        ensures err { IfErr result (IsRefused (V.state vault.old) (V.state vault.new)
            (place self.now.number self.now.path.now) manifest store.old) }
        ensures later { IsLater (V.state vault.old) (V.state vault.new) }
        ensures few { HaveFewNumbers store.new }
    {
        let manifest = FileName::manifest(self.alloc)?;
        self.read_file(&manifest, vault, store)
    }

    /// Reads some files in order, up to the first that can't be read.
    fn read_files<V: Vault>(
        &self,
        names: &[FileName],
        vault: &mut V,
        store: &mut Store,
    ) -> Result<(), LoadFault>
        requires { HaveFewNumbers store.old }
        ensures ok { OnOk result (AddAll (V.state vault.old)
            (place self.now.number self.now.path.now) names.now store.old store.new) }
        ensures err { IfErr result (StopsAt (V.state vault.old) (V.state vault.new)
            (place self.now.number self.now.path.now) names.now store.old) }
        ensures later { IsLater (V.state vault.old) (V.state vault.new) }
        ensures few { HaveFewNumbers store.new }
    {
        for name in names {
            self.read_file(name, vault, store)?;
        }
        Ok(())
    }

    /// Adds the triples of a file to the store.
    fn read_file<V: Vault>(
        &self,
        name: &FileName,
        vault: &mut V,
        store: &mut Store,
    ) -> Result<(), LoadFault>
        requires { HaveFewNumbers store.old }
        ensures ok { OnOk result (Adds (V.state vault.old)
            (place self.now.number self.now.path.now) name.now store.old store.new) }
        ensures err { IfErr result (IsRefused (V.state vault.old) (V.state vault.new)
            (place self.now.number self.now.path.now) name.now store.old) }
        ensures later { IsLater (V.state vault.old) (V.state vault.new) }
        ensures few { HaveFewNumbers store.new }
    {
        let path = self.path_of(name)?;
        let mut bytes = Bytes::new(self.alloc);
        match vault.read(path.as_bytes(), MOST_FILE_BYTES, &mut bytes) {
            Fetch::Got => self.read_document(name, path, bytes.as_slice(), store),
            Fetch::Absent => Err(LoadFault::Missing(path)),
            Fetch::TooLong => Err(LoadFault::TooLong(path)),
            Fetch::Failed => Err(LoadFault::ReadFailed(path)),
            Fetch::NoMemory => Err(LoadFault::NoMemory),
        }
    }

    /// Adds the triples of a file with these bytes.
    fn read_document(
        &self,
        name: &FileName,
        path: Text,
        bytes: &[u8],
        store: &mut Store,
    ) -> Result<(), LoadFault>
        requires { HaveFewNumbers store.old }
        ensures ok { OnOk result (Reads (place self.now.number self.now.path.now) name.now store.old bytes.now (document store.new)) }
        ensures err { IfErr result (IsMisread path (Reads (place self.now.number self.now.path.now) name.now store.old bytes.now)) }
        ensures few { HaveFewNumbers store.new }
    {
        let base = self.iri_of(name)?;
        match read(self.alloc, &base, bytes, store) {
            Ok(_) => Ok(()),
            Err(fault) => Err(cause(path, fault)),
        }
    }

    /// The path of a file in the vault.
    fn path_of(&self, name: &FileName) -> Result<Text, NoMemory>
        ensures { IfOk result (λ path. path ≡ path_of self.now.path.now name.now) }
    {
        let folder = self.path;
        let name = name.as_str();
        let text = format!(in self.alloc; "{folder}/{name}")?;
        Text::from_str(self.alloc, &text)
    }

    /// The IRI of a file, against which the file's relative IRIs are resolved.
    fn iri_of(&self, name: &FileName) -> Result<Text, NoMemory>
        ensures { IfOk result (λ iri. iri ≡ file_iri self.now.number name.now) }
    {
        let folder = folder_iri(self.alloc, self.number)?;
        let name = name.as_str();
        let text = format!(in self.alloc; "{folder}{name}")?;
        Text::from_str(self.alloc, &text)
    }
}

/// Why the file at a path, which is no document, can't be loaded.
fn cause(path: Text, fault: TurtleFault) -> LoadFault
    ensures { result ≡ cause path fault }
{
    match fault {
        TurtleFault::NoMemory => LoadFault::NoMemory,
        fault => LoadFault::Turtle { path, fault },
    }
}
