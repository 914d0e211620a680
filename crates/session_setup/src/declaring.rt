ghost use Rattle.std.specs.Prelude.{◌≡◌, ◌≢◌, [], All, Some, length, IfOk, IfErr, OnOk};
ghost use Rattle.plugin_decl.specs.Valid.{IsValid};
ghost use Rattle.session_setup.specs.Declaring.{HasRowsOfText, Judges, Declares, DeclaresByCode, DeclaresAll, TellsOf};
ghost use Rattle.session_setup.specs.Faults.{IsCause};

use crate::fault::SetupFault;
use crate::newest::newest;
use lv_base::{Items, NoMemory, Text};
use plug_api::Codes;
use plugin_decl::{Decl, DeclFault, declare};
use session_load::LoadFault;
use session_script::Inst;
use std::alloc::Global;
use triple_store::Store;
use turtle_read::{TurtleFault, read};

/// The declarations of some instances, in order, for blocks of `block` frames, or the first rule that the first of them breaks which
/// breaks one.
pub(crate) fn declare_all<C: Codes>(
    alloc: Global,
    insts: &[Inst],
    bundles: &[Store],
    codes: &C,
    block: u32,
) -> Result<Items<Decl>, SetupFault>
    ensures ok { IfOk result (λ decls. DeclaresAll (C.meaning codes.now).text bundles.now block insts.now (Ok decls)) }
    ensures all { IfOk result (λ decls. length decls ≡ length insts.now) }
    ensures valid { IfOk result (All IsValid) }
    ensures err { IfErr result (IsCause (DeclaresAll (C.meaning codes.now).text bundles.now block insts.now)) }
{
    let mut decls = Items::new(alloc);
    add_declarations(alloc, insts, bundles, codes, block, &mut decls)?;
    Ok(decls)
}

fn add_declarations<C: Codes>(
    alloc: Global,
    insts: &[Inst],
    bundles: &[Store],
    codes: &C,
    block: u32,
    decls: &mut Items<Decl>,
) -> Result<(), SetupFault>
    requires { decls.old ≡ [] }
    ensures ok { OnOk result (DeclaresAll (C.meaning codes.now).text bundles.now block insts.now (Ok decls.new)) }
    ensures all { OnOk result (length decls.new ≡ length insts.now) }
    ensures valid { OnOk result (All IsValid decls.new) }
    ensures err { IfErr result (IsCause (DeclaresAll (C.meaning codes.now).text bundles.now block insts.now)) }
{
    for inst in insts {
        let decl = declaration(alloc, bundles, codes, &inst.uri, block)?;
        decls.push(decl)?;
    }
    Ok(())
}

/// The declaration of a plug-in: by the bundle that counts, or, where no bundle declares it, by the document that comes with its code.
fn declaration<C: Codes>(
    alloc: Global,
    bundles: &[Store],
    codes: &C,
    uri: &Text,
    block: u32,
) -> Result<Decl, SetupFault>
    ensures ok { IfOk result (λ decl. Declares (C.meaning codes.now).text bundles.now block uri.now (Ok decl)) }
    ensures valid { IfOk result IsValid }
    ensures err { IfErr result (IsCause (Declares (C.meaning codes.now).text bundles.now block uri.now)) }
{
    match newest(bundles, uri)? {
        Some(found) => judge(alloc, &bundles[found.place], uri, block),
        None => declaration_by_code(alloc, codes, uri, block),
    }
}

/// The declaration that comes with the code of a plug-in.
fn declaration_by_code<C: Codes>(
    alloc: Global,
    codes: &C,
    uri: &Text,
    block: u32,
) -> Result<Decl, SetupFault>
    ensures ok { IfOk result (λ decl. DeclaresByCode (C.meaning codes.now).text block uri.now (Ok decl)) }
    ensures valid { IfOk result IsValid }
    ensures err { IfErr result (IsCause (DeclaresByCode (C.meaning codes.now).text block uri.now)) }
{
    let mut rows = Store::new(alloc);
    declaration_over(alloc, codes, uri, block, &mut rows)
}

/// The same over a store without rows, to which those of the code are added.
fn declaration_over<C: Codes>(
    alloc: Global,
    codes: &C,
    uri: &Text,
    block: u32,
    rows: &mut Store,
) -> Result<Decl, SetupFault>
    requires { rows.old ≡ [] }
    ensures ok { IfOk result (λ decl. DeclaresByCode (C.meaning codes.now).text block uri.now (Ok decl)) }
    ensures valid { IfOk result IsValid }
    ensures err { IfErr result (IsCause (DeclaresByCode (C.meaning codes.now).text block uri.now)) }
{
    read_rows(alloc, codes, uri, rows)?;
    judge(alloc, rows, uri, block)
}

/// Adds the triples of the document that comes with the code of a plug-in. There are none where none comes, or where it is no document.
fn read_rows<C: Codes>(
    alloc: Global,
    codes: &C,
    uri: &Text,
    rows: &mut Store,
) -> Result<(), NoMemory>
    requires { rows.old ≡ [] }
    ensures { OnOk result (HasRowsOfText ((C.meaning codes.now).text uri.now) rows.new) }
{
    match codes.text(uri) {
        Some(text) => read_text(alloc, text, rows),
        None => Ok(()),
    }
}

fn read_text(alloc: Global, text: &[u8], rows: &mut Store) -> Result<(), NoMemory>
    requires { rows.old ≡ [] }
    ensures { OnOk result (HasRowsOfText (Some text.now) rows.new) }
{
    let folder = Text::from_str(alloc, "file:///code/")?;
    let answer = read(alloc, &folder, text, rows);
    unless_no_memory(answer)
}

/// Whether a document was read or refused for what it says.
fn unless_no_memory(answer: Result<u32, TurtleFault>) -> Result<(), NoMemory>
    ensures { OnOk result (answer ≢ Err TurtleFault.NoMemory) }
{
    match answer {
        Err(TurtleFault::NoMemory) => Err(NoMemory),
        _ => Ok(()),
    }
}

/// What triples declare of a plug-in, or the first rule that they break.
fn judge(alloc: Global, rows: &Store, uri: &Text, block: u32) -> Result<Decl, SetupFault>
    ensures ok { IfOk result (λ decl. Judges rows.now uri.now block (Ok decl)) }
    ensures valid { IfOk result IsValid }
    ensures err { IfErr result (IsCause (Judges rows.now uri.now block)) }
{
    match declare(alloc, rows, uri, block) {
        Ok(decl) => Ok(decl),
        Err(fault) => Err(undeclared(uri, fault)),
    }
}

/// A fault of a plug-in's declaration.
fn undeclared(uri: &Text, fault: DeclFault) -> SetupFault
    ensures { TellsOf uri.now fault result }
{
    match name_of(uri, &fault) {
        Ok(uri) => SetupFault::Undeclared { uri, fault },
        Err(NoMemory) => SetupFault::Load(LoadFault::NoMemory),
    }
}

/// The name of a plug-in that breaks a rule. Want of memory answers itself.
fn name_of(uri: &Text, fault: &DeclFault) -> Result<Text, NoMemory>
    ensures name { IfOk result (λ name. name ≡ uri.now) }
    ensures some { OnOk result (fault.now ≢ DeclFault.NoMemory) }
{
    match fault {
        DeclFault::NoMemory => Err(NoMemory),
        _ => Ok(uri.clone()?),
    }
}
