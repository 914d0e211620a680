ghost use Rattle.std.specs.Prelude.{◌≡◌, ◌≢◌, ◌++◌, IfOk, IfErr, OnOk};
ghost use Rattle.plugin_list.specs.Listing.{plugin_lines};
ghost use Rattle.plugin_list.specs.Rules.{rule_text};
ghost use Rattle.plugin_decl.specs.declared.declaration.DeclFault.TheVariants.{NoMemory as Want};
ghost use Rattle.session_load.specs.declared.fault.LoadFault.TheVariants.{NoMemory as NoRoom};
ghost use Rattle.host_main.specs.Listing.{declared_lines, plugins_listing, IsDeclared, AreDeclared};
ghost use Rattle.host_main.specs.PluginRefusals.{IsPluginRefusal, IsUriRefusal, IsRefusalOf};
ghost use Rattle.host_main.specs.declared.checking.refusal.CheckRefusal.TheVariants.{Load, Undeclared};

use crate::checking::refusal::CheckRefusal;
use lv_base::{Bytes, NoMemory, Text};
use plugin_decl::{Decl, DeclFault};
use session_load::LoadFault;
use std::alloc::Global;
use triple_store::Store;

/// The length of the blocks for which a plug-in's features are judged.
const CHECK_BLOCK: u32 = 256;

/// Adds the number of a bundle's plug-ins and the lines of each, in order of the rows that say that
/// they are plug-ins. It is refused at the first whose declaration breaks a rule.
pub fn push_plugins(alloc: Global, into: &mut Bytes, store: &Store) -> Result<(), CheckRefusal>
    ensures declared { OnOk result (AreDeclared store.now) }
    ensures lines { OnOk result (into.new ≡ into.old ++ plugins_listing store.now) }
    ensures err { IfErr result (IsPluginRefusal store.now) }
{
    let uris = plugin_list::plugins(alloc, store)?;
    plugin_list::push_count(into, uris.len())?;
    for uri in uris.as_slice() {
        push_plugin(alloc, into, store, uri)?;
    }
    Ok(())
}

// The lines of the plug-in with this URI.
fn push_plugin(
    alloc: Global,
    into: &mut Bytes,
    store: &Store,
    uri: &Text,
) -> Result<(), CheckRefusal>
    ensures declared { OnOk result (IsDeclared store.now uri.now) }
    ensures lines { OnOk result (into.new ≡ into.old ++ declared_lines store.now uri.now) }
    ensures err { IfErr result (IsUriRefusal store.now uri.now) }
{
    match plugin_decl::declare(alloc, store, uri, CHECK_BLOCK) {
        Ok(plugin) => push_lines(into, &plugin),
        Err(fault) => Err(refused(alloc, uri, &fault)),
    }
}

// The lines of a plug-in and of its ports.
fn push_lines(into: &mut Bytes, plugin: &Decl) -> Result<(), CheckRefusal>
    ensures lines { OnOk result (into.new ≡ into.old ++ plugin_lines plugin.now) }
    ensures err { IfErr result (λ refusal. refusal ≡ Load NoRoom) }
{
    plugin_list::push_plugin(into, plugin)?;
    Ok(())
}

// Why a plug-in isn't listed that can't be declared: by the rule that it breaks, or for want of memory.
fn refused(alloc: Global, uri: &Text, fault: &DeclFault) -> CheckRefusal
    ensures { IsRefusalOf uri.now fault.now result }
{
    match undeclared(alloc, uri, fault) {
        Ok(refusal) => refusal,
        Err(NoMemory) => CheckRefusal::Load(LoadFault::NoMemory),
    }
}

// The refusal of a plug-in by the rule that it breaks. The rule's text is made here, so that the
// line takes no memory to be put.
fn undeclared(alloc: Global, uri: &Text, fault: &DeclFault) -> Result<CheckRefusal, NoMemory>
    ensures is { IfOk result (λ refusal. refusal ≡ Undeclared uri.now (rule_text fault.now)) }
    ensures rule { IfOk result (λ _. fault.now ≢ Want) }
{
    if let DeclFault::NoMemory = fault {
        return Err(NoMemory);
    }
    let mut rule = Bytes::new(alloc);
    plugin_list::push_rule(&mut rule, fault)?;
    Ok(CheckRefusal::Undeclared {
        uri: uri.clone()?,
        rule,
    })
}
