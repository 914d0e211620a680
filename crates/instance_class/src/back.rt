ghost use Rattle.std.specs.Prelude.{◌≡◌, []};
ghost use Rattle.step_law.specs.declared.call.Call.TheVariants.{Work, Save, RestoreSafe};
ghost use Rattle.plug_api.specs.Running.{Works};
ghost use Rattle.plug_api.specs.Calls.{CanCall, Called, CanMarkCall, MarksCall};

use crate::marking::{begin, end};
use plug_api::{Back, Codes, Respond, Sched};
use state_store::{Props, Shelf};
use std::marker::Model;
use step_record::{Call, Marks};

/// The back of an active instance.
#[derive(Drop)]
pub struct BackOf<C: Codes> {
    inst: u32,
    pub(crate) part: C::Back,
}

impl<C: Codes> Model for BackOf<C> {
    ghost use Rattle.instance_class.specs.Parts.{BackPart};

    ghost Value = { BackPart C.Back };

    ghost view = { λ back. record { inst = back.inst; part = back.part } };
}

impl<C: Codes> BackOf<C> {
    pub(crate) fn new(inst: u32, part: C::Back) -> Self
        ensures { result ≡ record { inst = inst; part = part } }
    {
        BackOf { inst, part }
    }

    pub(crate) fn into_part(self) -> C::Back
        ensures { result ≡ self.part }
    {
        let BackOf { part, .. } = self;
        part
    }

    /// The instance's number.
    pub fn inst(&self) -> u32
        ensures { result ≡ self.now.inst }
    {
        self.inst
    }

    /// Does a job, and may respond. The answer is a status.
    pub fn work<R: Respond + Marks>(&mut self, body: &[u8], answer: &mut R) -> u8
        requires { CanCall R.actor_of R.can_mark R.marked R.went answer.old }
        ensures worked { Works (C.Back.meaning.work self.old.part body.now) (Called R.actor_of R.marked R.went Work self.old.inst) answer.old self.new.part result answer.new }
        ensures back { self.new ≡ record self.old { part = self.new.part } }
    {
        begin(answer, Call::Work, self.inst);
        let status = self.part.work(body, answer);
        end(answer, Call::Work, self.inst);
        status
    }

    /// Stores its state on an empty shelf. The answer is a status.
    pub fn save<K: Marks>(&self, shelf: &mut Shelf, marks: &mut K) -> u8
        requires empty { shelf.old.rows ≡ [] }
        requires marks { CanMarkCall K.actor_of K.can_mark K.marked marks.old }
        ensures marks { MarksCall K.actor_of K.marked Save self.now.inst marks.old marks.new }
        ensures status { result ≡ (C.Back.meaning.save self.now.part shelf.old.mapped).0 }
        ensures shelf { shelf.new ≡ record shelf.old { rows = (C.Back.meaning.save self.now.part shelf.old.mapped).1 } }
    {
        begin(marks, Call::Save, self.inst);
        let status = self.part.save(shelf);
        end(marks, Call::Save, self.inst);
        status
    }

    /// Takes its state back beside the runs, and may schedule jobs for itself. The answer is a status.
    pub fn restore_safe<S: Sched + Marks>(&mut self, from: &Props, sched: &mut S) -> u8
        requires { CanCall S.actor_of S.can_mark S.marked S.went sched.old }
        ensures restored { Works (C.Back.meaning.restore_safe self.old.part from.now) (Called S.actor_of S.marked S.went RestoreSafe self.old.inst) sched.old self.new.part result sched.new }
        ensures back { self.new ≡ record self.old { part = self.new.part } }
    {
        begin(sched, Call::RestoreSafe, self.inst);
        let status = self.part.restore_safe(from, sched);
        end(sched, Call::RestoreSafe, self.inst);
        status
    }
}
