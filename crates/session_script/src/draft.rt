ghost use Rattle.std.specs.Prelude.{◌≡◌, ◌<◌, ◌^◌, ℕ, [], false, length, None, OnOk, IfOk, IsTrue, codes};
ghost use Rattle.std.specs.Str.{bytes_eq};
ghost use Rattle.std.specs.Option.{option_copied};
ghost use Rattle.session_script.specs.Draft as spec;
ghost use Rattle.session_script.specs.Draft.{draft_of};
ghost use Rattle.session_script.specs.Limits.{AreInBounds};
ghost use Rattle.session_script.specs.Line.Act.{patch_set};
ghost use Rattle.session_script.specs.Places.{place};
ghost use Rattle.session_script.specs.Line.Line.{setting as setting_line, bundle as bundle_line, inst as inst_line, set as set_line, cable as cable_line, out as out_line, at as at_line};
ghost use Rattle.session_script.specs.Rules.{broken_rule, block_reached};
ghost use Rattle.session_script.specs.Sorts as sorts;
ghost use Rattle.session_script.specs.Step.{with_line};
ghost use Rattle.session_script.specs.Said.{said, act_said};
ghost use Rattle.session_script.specs.Judged.{IsActWell, IsWorkerWell};
ghost use Rattle.session_script.specs.Words.{value_of};

use crate::keyword::{Section, Setting};
use crate::numbers::Numbers;
use crate::roster::Roster;
use crate::session::{Action, CableLine, Deed, Inst, OutLine, SetLine};
use crate::sorts::{decimal_value, integer, small_number, without_slash};
use crate::statement::{Deeds, Statement};
use lv_base::{Items, NoMemory, Text};
use std::alloc::Global;

/// What the lines read so far say together.
#[derive(Drop)]
pub(crate) struct Draft {
    pub section: Section,
    pub numbers: Numbers,
    pub bundles: Items<Text>,
    pub insts: Roster,
    pub sets: Items<SetLine>,
    pub cables: Items<CableLine>,
    pub outs: Items<OutLine>,
    pub actions: Items<Action>,
}

impl Draft {
    /// The draft before the first line.
    pub(crate) fn new(alloc: Global) -> Self
        ensures { result ≡ draft_of [] }
    {
        Draft {
            section: Section::Start,
            numbers: Numbers::new(),
            bundles: Items::new(alloc),
            insts: Roster::new(alloc),
            sets: Items::new(alloc),
            cables: Items::new(alloc),
            outs: Items::new(alloc),
            actions: Items::new(alloc),
        }
    }

    /// The block of the last action.
    pub(crate) fn block_reached(&self) -> u32
        ensures { result ≡ block_reached self.now.actions }
    {
        match self.actions.as_slice().last() {
            Some(action) => action.block,
            None => 0,
        }
    }

    /// Adds a line that breaks no rule.
    pub(crate) fn add(
        &mut self,
        alloc: Global,
        line: u32,
        statement: Statement<'_>,
    ) -> Result<(), NoMemory>
        requires well { broken_rule self.old (said statement) ≡ None }
        requires few { length self.old.insts < line }
        requires bounds { AreInBounds self.old.numbers }
        ensures { OnOk result (self.new ≡ with_line self.old line (said statement.entry)) }
    {
        match statement {
            Statement::Skipped | Statement::Miscounted(_) | Statement::Unknown => Ok(()),
            Statement::Header => {
                self.section = self.section.latest(Section::Settings);
                Ok(())
            }
            Statement::Setting(kind, number) => {
                self.add_setting(kind, number);
                Ok(())
            }
            Statement::Bundle(path) => self.add_bundle(alloc, path),
            Statement::Inst(name, uri, worker) => self.add_inst(alloc, line, name, uri, worker),
            Statement::Set(name, symbol, decimal) => {
                self.add_set(alloc, line, name, symbol, decimal)
            }
            Statement::Cable(source, output, target, input, delayed) => {
                self.add_cable(alloc, line, (source, output), (target, input), delayed)
            }
            Statement::Out(name, symbol) => self.add_out(alloc, line, name, symbol),
            Statement::At(block, name, act) => self.add_action(alloc, line, block, name, act),
        }
    }

    fn add_setting(&mut self, kind: Setting, word: &str)
        requires { value_of word.now < 2 ^ 32 }
        ensures { (line : ℕ) → self.new ≡ with_line self.old line (setting_line kind word.now) }
    {
        self.section = self.section.latest(Section::Settings);
        self.numbers.set(kind, small_number(word));
    }

    fn add_bundle(&mut self, alloc: Global, path: &str) -> Result<(), NoMemory>
        ensures { (line : ℕ) → OnOk result (self.new ≡ with_line self.old line (bundle_line path.now)) }
    {
        let path = Text::from_str(alloc, without_slash(path))?;
        self.bundles.push(path)?;
        self.section = self.section.latest(Section::Bundles);
        Ok(())
    }

    fn add_inst(
        &mut self,
        alloc: Global,
        line: u32,
        name: &str,
        uri: &str,
        worker: Option<&str>,
    ) -> Result<(), NoMemory>
        requires few { length self.old.insts < 2 ^ 32 }
        requires new { place self.old.insts name.now ≡ length self.old.insts }
        requires worker { IsWorkerWell (option_copied worker) }
        ensures { OnOk result (self.new ≡ with_line self.old line (inst_line name.now uri.now (option_copied worker.entry))) }
    {
        let worker = match worker {
            Some(word) => Some(small_number(word)),
            None => None,
        };
        let inst = Inst {
            name: Text::from_str(alloc, name)?,
            uri: Text::from_str(alloc, uri)?,
            worker,
            line,
        };
        self.insts.push(alloc, inst)?;
        self.section = self.section.latest(Section::Insts);
        Ok(())
    }

    fn add_set(
        &mut self,
        alloc: Global,
        line: u32,
        name: &str,
        symbol: &str,
        decimal: &str,
    ) -> Result<(), NoMemory>
        requires { length self.old.insts < 2 ^ 32 }
        ensures { OnOk result (self.new ≡ with_line self.old line (set_line name.now symbol.now decimal.now)) }
    {
        let inst = self.insts.place(name);
        let symbol = Text::from_str(alloc, symbol)?;
        let value = decimal_value(decimal);
        self.sets.push(SetLine {
            inst,
            symbol,
            value,
            line,
        })?;
        self.section = self.section.latest(Section::Sets);
        Ok(())
    }

    fn add_cable(
        &mut self,
        alloc: Global,
        line: u32,
        from: (&str, &str),
        to: (&str, &str),
        delayed: Option<&str>,
    ) -> Result<(), NoMemory>
        requires { length self.old.insts < 2 ^ 32 }
        ensures { OnOk result (self.new ≡ with_line self.old line
            (cable_line from.entry.0.now from.entry.1.now to.entry.0.now to.entry.1.now (option_copied delayed.entry))) }
    {
        let (source, output) = from;
        let (target, input) = to;
        let source = self.insts.place(source);
        let target = self.insts.place(target);
        let output = Text::from_str(alloc, output)?;
        let input = Text::from_str(alloc, input)?;
        self.cables.push(CableLine {
            source,
            output,
            target,
            input,
            delayed: delayed.is_some(),
            line,
        })?;
        self.section = self.section.latest(Section::Cables);
        Ok(())
    }

    fn add_out(
        &mut self,
        alloc: Global,
        line: u32,
        name: &str,
        symbol: &str,
    ) -> Result<(), NoMemory>
        requires { length self.old.insts < 2 ^ 32 }
        ensures { OnOk result (self.new ≡ with_line self.old line (out_line name.now symbol.now)) }
    {
        let inst = self.insts.place(name);
        let symbol = Text::from_str(alloc, symbol)?;
        self.outs.push(OutLine { inst, symbol, line })?;
        self.section = self.section.latest(Section::Outs);
        Ok(())
    }

    fn add_action(
        &mut self,
        alloc: Global,
        line: u32,
        block: &str,
        name: &str,
        act: Deeds<'_>,
    ) -> Result<(), NoMemory>
        requires few { length self.old.insts < 2 ^ 32 }
        requires block { value_of block.now < 2 ^ 32 }
        requires act { IsActWell (act_said act) }
        ensures { OnOk result (self.new ≡ with_line self.old line (at_line block.now name.now (act_said act.entry))) }
    {
        let block = small_number(block);
        let inst = self.insts.place(name);
        let deed = deed_of(alloc, act)?;
        self.actions.push(Action {
            block,
            inst,
            deed,
            line,
        })?;
        self.section = self.section.latest(Section::Actions);
        Ok(())
    }
}

/// What a line `at` does, with texts of its own.
fn deed_of(alloc: Global, act: Deeds<'_>) -> Result<Deed, NoMemory>
    requires { IsActWell (act_said act) }
    ensures { IfOk result (λ deed. deed ≡ spec.deed_of (act_said act.entry)) }
{
    match act {
        Deeds::SetValue(symbol, decimal) => {
            let symbol = Text::from_str(alloc, symbol)?;
            let value = decimal_value(decimal);
            Ok(Deed::Set { symbol, value })
        }
        Deeds::PatchSet(property, form, value) => {
            let property = Text::from_str(alloc, property)?;
            Ok(patch_of(property, form, value))
        }
        Deeds::PatchGet(None) => Ok(Deed::PatchGet { property: None }),
        Deeds::PatchGet(Some(property)) => {
            let property = Text::from_str(alloc, property)?;
            Ok(Deed::PatchGet {
                property: Some(property),
            })
        }
        Deeds::Save => Ok(Deed::Save),
        Deeds::Restore(path, place) => {
            let path = Text::from_str(alloc, path)?;
            let place = small_number(place);
            Ok(Deed::Restore { path, place })
        }
    }
}

/// A set of a property by a value of its form.
fn patch_of(property: Text, form: &str, value: &str) -> Deed
    requires { bytes_eq form.now (codes "fixed") ≡ false → IsTrue (sorts.fits_i32 value.now) }
    ensures { result ≡ spec.deed_of (patch_set property form.now value.now) }
{
    if form == "fixed" {
        let value = decimal_value(value);
        Deed::PatchFixed { property, value }
    } else {
        let value = integer(value);
        Deed::PatchInt { property, value }
    }
}
