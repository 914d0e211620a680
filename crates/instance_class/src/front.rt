ghost use Rattle.std.specs.Prelude.{◌≡◌, IsTrue};
ghost use Rattle.step_law.specs.declared.call.Call.TheVariants.{Run, Response, EndRun};
ghost use Rattle.plug_api.specs.Ports.{ports_of, IsLent, IsSameLoan};
ghost use Rattle.plug_api.specs.Running.{Runs};
ghost use Rattle.plug_api.specs.Calls.{CanCall, Called, CanMarkCall, MarksCall};

use crate::marking::{begin, end};
use lv_base::Items;
use plug_api::{Codes, Front, Ports, Sched};
use plugin_decl::Port;
use std::marker::Model;
use step_record::{Call, Marks};

/// The front of an active instance, with the ports that were declared of it. It can run over them.
#[derive(Drop)]
pub struct FrontOf<C: Codes> {
    inst: u32,
    ports: Items<Port>,
    pub(crate) part: C::Front,
}

impl<C: Codes> Model for FrontOf<C> {
    ghost use Rattle.std.specs.Prelude.{IsTrue};
    ghost use Rattle.instance_class.specs.Parts.{FrontPart};

    ghost Value = { FrontPart C.Front };

    ghost view = { λ front. record { inst = front.inst; ports = front.ports; part = front.part } };

    ghost invariant = { λ front. IsTrue (C.Front.meaning.fits front.part front.ports) };
}

impl<C: Codes> FrontOf<C> {
    pub(crate) fn new(inst: u32, ports: Items<Port>, part: C::Front) -> Self
        requires { IsTrue (C.Front.meaning.fits part ports) }
        ensures { result ≡ record { inst = inst; ports = ports; part = part } }
    {
        FrontOf { inst, ports, part }
    }

    pub(crate) fn into_parts(self) -> (Items<Port>, C::Front)
        ensures parts { result ≡ (self.ports, self.part) }
        ensures fits { IsTrue (C.Front.meaning.fits self.part self.ports) }
    {
        let FrontOf { ports, part, .. } = self;
        (ports, part)
    }

    /// The instance's number.
    pub fn inst(&self) -> u32
        ensures { result ≡ self.now.inst }
    {
        self.inst
    }

    /// Its declared ports.
    pub fn ports(&self) -> &[Port]
        ensures { result.now ≡ self.now.ports }
    {
        self.ports.as_slice()
    }

    /// Plays one block.
    pub fn run<S: Sched + Marks>(&mut self, ports: &mut Ports<'_>, sched: &mut S)
        requires ports { ports_of ports.old ≡ self.old.ports }
        requires lent { IsLent ports.old }
        requires marks { CanCall S.actor_of S.can_mark S.marked S.went sched.old }
        ensures ran { Runs C.Front.meaning.run (Called S.actor_of S.marked S.went Run self.old.inst) self.old.part ports.old sched.old self.new.part ports.new sched.new }
        ensures front { self.new ≡ record self.old { part = self.new.part } }
        ensures same_loan { IsSameLoan ports.old ports.new }
    {
        begin(sched, Call::Run, self.inst);
        self.part.run(ports, sched);
        end(sched, Call::Run, self.inst);
    }

    /// Takes a response of the back.
    pub fn response<K: Marks>(&mut self, body: &[u8], marks: &mut K)
        requires { CanMarkCall K.actor_of K.can_mark K.marked marks.old }
        ensures marks { MarksCall K.actor_of K.marked Response self.old.inst marks.old marks.new }
        ensures front { self.new ≡ record self.old { part = C.Front.meaning.response self.old.part body.now } }
    {
        begin(marks, Call::Response, self.inst);
        self.part.work_response(body);
        end(marks, Call::Response, self.inst);
    }

    /// Ends a run, once the responses of the block were delivered.
    pub fn end_run<K: Marks>(&mut self, marks: &mut K)
        requires { CanMarkCall K.actor_of K.can_mark K.marked marks.old }
        ensures marks { MarksCall K.actor_of K.marked EndRun self.old.inst marks.old marks.new }
        ensures front { self.new ≡ record self.old { part = C.Front.meaning.end_run self.old.part } }
    {
        begin(marks, Call::EndRun, self.inst);
        self.part.end_run();
        end(marks, Call::EndRun, self.inst);
    }
}
