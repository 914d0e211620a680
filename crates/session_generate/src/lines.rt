//! The lines of a generated session.
ghost use Rattle.std.specs.Prelude.{◌≡◌, ◌+◌, ◌%◌, ◌<◌, ◌++◌, decimal, [], OnOk};
ghost use Rattle.session_generate.specs.Lines.{after_draw, code_of, inst_line, fraction, drawn_value, value_line, cable_line, cable_lines, action_line, action_at};
ghost use Rattle.session_generate.specs.Generated.{WritesEach, WritesAll, settings, first_values, outs};

use crate::draws::Draws;
use lv_base::{Bytes, NoMemory};
use std::alloc::Global;
use std::marker::Model;

/// A text that is being written, and the numbers that are still to be drawn for it.
#[derive(Drop)]
pub(crate) struct Script {
    draws: Draws,
    text: Bytes,
}

impl Model for Script {
    ghost use Rattle.session_generate.specs.Lines.{Written};

    ghost Value = { Written };

    ghost view = { λ script. record { state = script.draws.state; text = script.text } };
}

impl Script {
    pub(crate) fn new(alloc: Global, seed: u32) -> Self
        ensures { result ≡ record { state = seed; text = [] } }
    {
        Script {
            draws: Draws::new(seed),
            text: Bytes::new(alloc),
        }
    }

    pub(crate) fn push_all(&mut self) -> Result<(), NoMemory>
        ensures { OnOk result (WritesAll self.old self.new) }
    {
        self.push_settings()?;
        self.push_insts()?;
        self.push_first_values()?;
        self.push_cables()?;
        self.push_outs()?;
        self.push_actions()
    }

    pub(crate) fn into_text(self) -> Bytes
        ensures { result ≡ self.text }
    {
        self.text
    }

    fn push_settings(&mut self) -> Result<(), NoMemory>
        ensures { OnOk result (self.new ≡ settings self.old) }
    {
        self.text
            .push_str("lv2fx 1\nblock 64\nblocks 512\nworkers 2\ncells 4\n")
    }

    fn push_insts(&mut self) -> Result<(), NoMemory>
        ensures { OnOk result (WritesEach inst_line 16 self.old self.new) }
    {
        for inst in 0..16u32 {
            self.push_inst(inst)?;
        }
        Ok(())
    }

    fn push_first_values(&mut self) -> Result<(), NoMemory>
        ensures { OnOk result (self.new ≡ first_values self.old) }
    {
        self.push_value(0)?;
        self.push_value(8)
    }

    fn push_cables(&mut self) -> Result<(), NoMemory>
        ensures { OnOk result (WritesEach cable_lines 16 self.old self.new) }
    {
        for inst in 0..16u32 {
            self.push_cables_to(inst)?;
        }
        Ok(())
    }

    fn push_outs(&mut self) -> Result<(), NoMemory>
        ensures { OnOk result (self.new ≡ outs self.old) }
    {
        self.text.push_str("out n14 out\nout n15 out\n")
    }

    fn push_actions(&mut self) -> Result<(), NoMemory>
        ensures { OnOk result (WritesEach action_line 64 self.old self.new) }
    {
        for number in 0..64u32 {
            self.push_action(8 * number)?;
        }
        Ok(())
    }

    fn push_inst(&mut self, inst: u32) -> Result<(), NoMemory>
        ensures { OnOk result (self.new ≡ inst_line self.old inst) }
    {
        push_numbered(&mut self.text, "inst n", inst)?;
        self.text.push_str(" urn:lv2fx:")?;
        self.text.push_str(code_name(inst % 8))?;
        self.text.push_str("\n")
    }

    fn push_value(&mut self, inst: u32) -> Result<(), NoMemory>
        ensures { OnOk result (self.new ≡ value_line inst self.old) }
    {
        push_numbered(&mut self.text, "set n", inst)?;
        self.push_drawn_value(" value ")
    }

    fn push_cables_to(&mut self, inst: u32) -> Result<(), NoMemory>
        ensures { OnOk result (self.new ≡ cable_lines self.old inst) }
    {
        match inst % 8 {
            1 | 3 => self.push_cable(inst, "in"),
            2 => {
                self.push_cable(inst, "a")?;
                self.push_cable(inst, "b")
            }
            _ => Ok(()),
        }
    }

    fn push_cable(&mut self, inst: u32, symbol: &str) -> Result<(), NoMemory>
        requires { 0 < inst }
        ensures { OnOk result (self.new ≡ cable_line inst self.old symbol.now) }
    {
        let source = self.draws.draw() % inst;
        push_numbered(&mut self.text, "cable n", source)?;
        push_numbered(&mut self.text, " out n", inst)?;
        self.text.push_str(" ")?;
        self.text.push_str(symbol)?;
        self.text.push_str("\n")
    }

    fn push_action(&mut self, block: u32) -> Result<(), NoMemory>
        ensures { OnOk result (self.new ≡ action_at block (after_draw self.old)) }
    {
        let choice = self.draws.draw() % 4;
        push_numbered(&mut self.text, "at ", block)?;
        match choice {
            0 => self.push_drawn_value(" set n0 value "),
            1 => self.push_drawn_value(" patch-set n7 urn:lv2fx:level fixed "),
            2 => self.text.push_str(" save n15\n"),
            _ => self.text.push_str(" patch-get n7\n"),
        }
    }

    // The end of a line: a number below one that is drawn for it.
    fn push_drawn_value(&mut self, before: &str) -> Result<(), NoMemory>
        ensures { OnOk result (self.new ≡ drawn_value before.now self.old) }
    {
        let number = self.draws.draw();
        self.text.push_str(before)?;
        push_fraction(&mut self.text, number)?;
        self.text.push_str("\n")
    }
}

fn push_numbered(text: &mut Bytes, before: &str, number: u32) -> Result<(), NoMemory>
    ensures { OnOk result (text.new ≡ text.old ++ (before.now ++ decimal number)) }
{
    text.push_str(before)?;
    text.push_decimal(u64::from(number))
}

// The last three digits of a number, after a point.
fn push_fraction(text: &mut Bytes, number: u32) -> Result<(), NoMemory>
    ensures { OnOk result (text.new ≡ text.old ++ fraction number) }
{
    text.push_str("0.")?;
    text.push_all(&[digit(number / 100), digit(number / 10), digit(number)])
}

fn digit(number: u32) -> u8
    ensures { result ≡ 48 + number % 10 }
{
    b'0' + (number % 10) as u8
}

fn code_name(kind: u32) -> &'static str
    requires { kind < 8 }
    ensures { result.now ≡ code_of kind }
{
    match kind {
        0 => "const",
        1 => "amp",
        2 => "mix",
        3 => "echo",
        4 => "fetch",
        5 => "burst",
        6 => "keep",
        _ => "tank",
    }
}
