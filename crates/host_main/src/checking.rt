ghost use Rattle.std.specs.Prelude.{◌≡◌, List, IfOk, IfErr, OnOk};
ghost use Rattle.triple_store.specs.declared.term.Triple.{Triple};
ghost use Rattle.lv_outside.specs.World.{LeavesFiles};
ghost use Rattle.session_load.specs.Bundle.{IsBundle, IsUnloaded};
ghost use Rattle.host_main.specs.Listing.{check_listing, AreDeclared};
ghost use Rattle.host_main.specs.PluginRefusals.{IsPluginRefusal};
ghost use Rattle.host_main.specs.GoesOn.{VaultGoesOn, SinkGoesOn};
ghost use Rattle.host_main.specs.Check.{folder_of, IsListed, IsUnlisted, IsCaused, LeavesSink, Explains, AnswersCheck};

mod plugins;
mod refusal;
mod say;

use crate::refusal::DONE;
use lv_base::{Bytes, Text};
use lv_outside::{Put, Sink, Vault};
use plugins::push_plugins;
use refusal::CheckRefusal;
use say::say;
use session_load::LoadFault;
use std::alloc::Global;
use triple_store::Store;

/// Lists the bundle in a folder: its triples, one a line, and their number; then the number of its
/// plug-ins, and a line for each and for each of its ports. One `/` at the end of the folder's name
/// is left out.
///
/// It answers 0 where the bundle was loaded, each plug-in is declared by the rules, and the listing
/// was put. Otherwise it puts the line of the refusal, and answers its status: 2 a file isn't
/// there, 3 a read failed, 4 the listing couldn't be put, 5 a file is no Turtle document, or passes
/// a limit of the reader, 6 the first plug-in that breaks a rule of declarations, 9 a file is
/// longer than 16 MiB, 14 no memory. It writes no file.
pub fn run_check<V: Vault, K: Sink>(alloc: Global, bundle: &Text, vault: &mut V, out: &mut K) -> u8
    ensures answers { AnswersCheck (folder_of bundle.now) (V.state vault.old) (V.state vault.new)
        (K.state out.old) (K.state out.new) result }
    ensures vault { VaultGoesOn (V.state vault.old) (V.state vault.new) }
    ensures sink { SinkGoesOn (K.state out.old) (K.state out.new) }
{
    answer(alloc, bundle, vault, out)
}

// The answer, with its cause.
fn answer<V: Vault, K: Sink>(alloc: Global, bundle: &Text, vault: &mut V, out: &mut K) -> u8
    ensures explained { Explains (folder_of bundle.now) (V.state vault.old) (V.state vault.new)
        (K.state out.old) (K.state out.new) result }
    ensures files { LeavesFiles (V.state vault.old) (V.state vault.new) }
    ensures vault { VaultGoesOn (V.state vault.old) (V.state vault.new) }
    ensures sink { SinkGoesOn (K.state out.old) (K.state out.new) }
{
    match check_to(alloc, bundle, vault, out) {
        Ok(()) => DONE,
        Err(refusal) => {
            say(&refusal, out);
            refusal.status()
        }
    }
}

fn check_to<V: Vault, K: Sink>(
    alloc: Global,
    bundle: &Text,
    vault: &mut V,
    out: &mut K,
) -> Result<(), CheckRefusal>
    ensures ok { OnOk result (IsListed (folder_of bundle.now) (V.state vault.old) (K.state out.old) (K.state out.new)) }
    ensures err { IfErr result (IsCaused (folder_of bundle.now) (V.state vault.old) (V.state vault.new)
        (K.state out.old) (K.state out.new)) }
    ensures quiet { IfErr result (λ refusal. LeavesSink refusal (K.state out.old) (K.state out.new)) }
    ensures files { LeavesFiles (V.state vault.old) (V.state vault.new) }
    ensures vault { VaultGoesOn (V.state vault.old) (V.state vault.new) }
    ensures sink { SinkGoesOn (K.state out.old) (K.state out.new) }
{
    let listing = listing(alloc, bundle, vault)?;
    match out.put(listing.as_slice()) {
        Put::Done => Ok(()),
        Put::Failed => Err(CheckRefusal::WriteFailed),
    }
}

// The listing of the bundle in a folder.
fn listing<V: Vault>(alloc: Global, bundle: &Text, vault: &mut V) -> Result<Bytes, CheckRefusal>
    ensures ok { IfOk result (λ listing. (rows : List Triple)
        × IsBundle (V.state vault.old) (folder_of bundle.now) 0 rows
        × AreDeclared rows × (listing ≡ check_listing rows)) }
    ensures err { IfErr result (IsUnlisted (folder_of bundle.now) (V.state vault.old) (V.state vault.new)) }
    ensures files { LeavesFiles (V.state vault.old) (V.state vault.new) }
    ensures goes_on { VaultGoesOn (V.state vault.old) (V.state vault.new) }
{
    let store = load(alloc, bundle, vault)?;
    listing_of(alloc, &store)
}

// The rows of the bundle in a folder.
fn load<V: Vault>(alloc: Global, bundle: &Text, vault: &mut V) -> Result<Store, LoadFault>
    ensures ok { IfOk result (IsBundle (V.state vault.old) (folder_of bundle.now) 0) }
    ensures err { IfErr result (IsUnloaded (V.state vault.old) (V.state vault.new) (folder_of bundle.now) 0) }
    ensures files { LeavesFiles (V.state vault.old) (V.state vault.new) }
    ensures goes_on { VaultGoesOn (V.state vault.old) (V.state vault.new) }
{
    let folder = Text::from_str(alloc, folder_of(bundle.as_str()))?;
    session_load::bundle(alloc, &folder, 0, vault)
}

// What is listed of a bundle's rows.
fn listing_of(alloc: Global, store: &Store) -> Result<Bytes, CheckRefusal>
    ensures declared { IfOk result (λ _. AreDeclared store.now) }
    ensures lines { IfOk result (λ listing. listing ≡ check_listing store.now) }
    ensures err { IfErr result (IsPluginRefusal store.now) }
{
    let mut listing = Bytes::new(alloc);
    triple_list::push_listing(&mut listing, store.rows())?;
    push_plugins(alloc, &mut listing, store)?;
    Ok(listing)
}

// The folder that a word names.
fn folder_of(word: &str) -> &str
    ensures { result.now ≡ folder_of word.now }
{
    word.strip_suffix("/").unwrap_or(word)
}
