ghost use Rattle.std.specs.Prelude.{◌≡◌, ◌⊎◌, ◌++◌, List, ℕ, IfOk};
ghost use Rattle.step_law.specs.declared.call.Call.TheVariants.{Make, Activate, Deactivate, Cleanup};
ghost use Rattle.plug_api.specs.Meaning.{IsMade};
ghost use Rattle.plug_api.specs.Calls.{CanMarkCall, MarksCall};
ghost use Rattle.instance_class.specs.Parts.{parts_of};

use crate::marking::{begin, end};
use crate::{BackOf, FrontOf};
use lv_base::{Items, NoMemory};
use plug_api::{Codes, Front, MakeFault};
use plugin_decl::{Decl, Options, Port};
use std::alloc::Global;
use std::marker::Model;
use std::mem;
use step_record::{Call, Marks};
use urid_map::Urids;

/// An instance that isn't active: made and not yet activated, or deactivated.
#[derive(Drop)]
pub struct Made<C: Codes> {
    inst: u32,
    ports: Items<Port>,
    front: C::Front,
    back: C::Back,
}

impl<C: Codes> Model for Made<C> {
    ghost use Rattle.std.specs.Prelude.{IsTrue};
    ghost use Rattle.instance_class.specs.Parts.{Whole};

    ghost Value = { Whole C.Front C.Back };

    ghost view = { λ made. record { inst = made.inst; ports = made.ports; front = made.front; back = made.back } };

    ghost invariant = { λ made. IsTrue (C.Front.meaning.fits made.front made.ports) };
}

impl<C: Codes> Made<C> {
    /// The instance's number.
    pub fn inst(&self) -> u32
        ensures { result ≡ self.now.inst }
    {
        self.inst
    }

    /// Activates the instance: its parts may go to different threads.
    pub fn activate<K: Marks>(self, marks: &mut K) -> (FrontOf<C>, BackOf<C>)
        requires { CanMarkCall K.actor_of K.can_mark K.marked marks.old }
        ensures marks { MarksCall K.actor_of K.marked Activate self.inst marks.old marks.new }
        ensures front { result.0 ≡ record { inst = self.inst; ports = self.ports; part = C.Front.meaning.activate self.front } }
        ensures back { result.1 ≡ record { inst = self.inst; part = self.back } }
    {
        let Made {
            inst,
            ports,
            mut front,
            back,
        } = self;
        begin(marks, Call::Activate, inst);
        front.activate();
        end(marks, Call::Activate, inst);
        (FrontOf::new(inst, ports, front), BackOf::new(inst, back))
    }

    /// Ends the instance.
    pub fn cleanup<K: Marks>(self, marks: &mut K)
        requires { CanMarkCall K.actor_of K.can_mark K.marked marks.old }
        ensures { MarksCall K.actor_of K.marked Cleanup self.inst marks.old marks.new }
    {
        let inst = self.inst;
        begin(marks, Call::Cleanup, inst);
        mem::drop(self);
        end(marks, Call::Cleanup, inst);
    }
}

/// Makes an instance of the code that the declaration's URI names, and keeps a copy of its declared ports. Without memory for that
/// copy nothing is called, and nothing marked.
pub fn make<C: Codes, K: Marks>(
    codes: &C,
    alloc: Global,
    decl: &Decl,
    inst: u32,
    rate: u32,
    options: &Options,
    urids: &mut Urids,
    marks: &mut K,
) -> Result<Made<C>, MakeFault>
    requires { CanMarkCall K.actor_of K.can_mark K.marked marks.old }
    ensures made { IsMade ((C.meaning codes.now).make decl.now rate options.now urids.old) (parts_of result) urids.new }
    ensures inst { IfOk result (λ made. made.inst ≡ inst) }
    ensures ports { IfOk result (λ made. made.ports ≡ decl.now.ports) }
    ensures marks { MarksCall K.actor_of K.marked Make inst marks.old marks.new ⊎ ((result ≡ Err MakeFault.NoMemory) × (marks.new ≡ marks.old) × (urids.new ≡ urids.old)) }
    ensures urids { (more : List (List ℕ)) × (urids.new ≡ urids.old ++ more) }
{
    let ports = copy_ports(alloc, decl.ports.as_slice())?;
    begin(marks, Call::Make, inst);
    let parts = codes.make(alloc, decl, rate, options, urids);
    end(marks, Call::Make, inst);
    match parts {
        Ok((front, back)) => Ok(Made {
            inst,
            ports,
            front,
            back,
        }),
        Err(fault) => {
            mem::drop(ports);
            Err(fault)
        }
    }
}

/// Deactivates an instance, of which both parts are here.
pub fn deactivate<C: Codes, K: Marks>(front: FrontOf<C>, back: BackOf<C>, marks: &mut K) -> Made<C>
    requires same_inst { front.inst ≡ back.inst }
    requires marks { CanMarkCall K.actor_of K.can_mark K.marked marks.old }
    ensures marks { MarksCall K.actor_of K.marked Deactivate front.inst marks.old marks.new }
    ensures made { result ≡ record { inst = front.inst; ports = front.ports; front = C.Front.meaning.deactivate front.part; back = back.part } }
{
    let inst = front.inst();
    let (ports, mut part) = front.into_parts();
    begin(marks, Call::Deactivate, inst);
    part.deactivate();
    end(marks, Call::Deactivate, inst);
    Made {
        inst,
        ports,
        front: part,
        back: back.into_part(),
    }
}

fn copy_ports(alloc: Global, ports: &[Port]) -> Result<Items<Port>, NoMemory>
    ensures { IfOk result (λ copy. copy ≡ ports.now) }
{
    let mut copy = Items::new(alloc);
    for port in ports {
        copy.push(copy_port(port)?)?;
    }
    Ok(copy)
}

fn copy_port(port: &Port) -> Result<Port, NoMemory>
    ensures { IfOk result (λ copy. copy ≡ port.now) }
{
    let symbol = port.symbol.clone()?;
    let name = port.name.clone()?;
    Ok(Port {
        index: port.index,
        symbol,
        name,
        input: port.input,
        kind: port.kind,
        optional: port.optional,
        first: port.first,
        least: port.least,
        most: port.most,
        room: port.room,
        control: port.control,
        patch: port.patch,
    })
}
