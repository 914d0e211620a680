ghost use Rattle.std.specs.Prelude.{◌≡◌, ◌<◌, ◌^◌, [], length, IfOk, Some, None, true};
ghost use Rattle.std.specs.Result.{result_err};
ghost use Rattle.record_law.specs.Message.{History};
ghost use Rattle.record_law.specs.Protocol.{done_in};
ghost use Rattle.record_law.specs.Rules as rules;
ghost use Rattle.record_law.specs.There.{has_form};
ghost use Rattle.record_terms.specs.Session.{IsSession};
ghost use Rattle.order_base.specs.There.{IsThere};
ghost use Rattle.record_legal.specs.Judging.{IsJudge, Judged, HasJudged, IsAbout};

use lv_base::NoMemory;
use record_counts::has_form;
use record_law::{Broken, Shape};
use record_order::{Queues, Tracker};
use record_rules::Counts;
use record_terms::Message;
use std::alloc::Global;
use step_law::Entry;

/// What is kept of the entries so far, none of which broke a rule: what each actor is doing, which messages wait, and what the rules count.
#[derive(Drop)]
pub struct Judge {
    pub(crate) tracker: Tracker,
    pub(crate) queues: Queues,
    pub(crate) counts: Counts,
}

impl Judge {
    /// No entry came yet.
    pub fn new(alloc: Global, shape: &Shape) -> Result<Judge, NoMemory>
        requires { IsSession shape.now }
        ensures judge { IfOk result (IsJudge shape.now) }
        ensures judged { IfOk result (Judged shape.now []) }
    {
        Ok(Judge {
            tracker: Tracker::new(alloc, shape)?,
            queues: Queues::new(alloc, shape)?,
            counts: Counts::new(alloc, shape)?,
        })
    }

    /// The first rule that an entry breaks; where it breaks none, the judge goes on by it.
    pub fn judge(&mut self, shape: &Shape, entry: Entry) -> Option<Broken>
        requires session { IsSession shape.now }
        requires judge { IsJudge shape.now self.old }
        requires judged { HasJudged shape.now self.old }
        ensures broken { (h : History) → length h < 2 ^ 63 → Judged shape.now h self.old → result ≡ rules.first_broken shape.now h entry }
        ensures judge { result ≡ None → IsJudge shape.now self.new }
        ensures judged { (h : History) → length h < 2 ^ 63 → result ≡ None → Judged shape.now h self.old → Judged shape.now (done_in shape.now h entry) self.new }
    {
        self.follow(shape, entry).err()
    }

    /// What an entry is about, where it breaks no rule; then the judge goes on by it. Else the first rule that it breaks, after which the
    /// judge stands for no history.
    pub fn follow(&mut self, shape: &Shape, entry: Entry) -> Result<Message, Broken>
        requires session { IsSession shape.now }
        requires judge { IsJudge shape.now self.old }
        requires judged { HasJudged shape.now self.old }
        ensures broken { (h : History) → length h < 2 ^ 63 → Judged shape.now h self.old → result_err result ≡ rules.first_broken shape.now h entry }
        ensures about { IfOk result (λ about. (h : History) → length h < 2 ^ 63 → Judged shape.now h self.old → IsAbout shape.now h entry about) }
        ensures there { IfOk result (IsThere shape.now) }
        ensures judge { IfOk result (λ about. IsJudge shape.now self.new) }
        ensures judged { IfOk result (λ about. (h : History) → length h < 2 ^ 63 → Judged shape.now h self.old → Judged shape.now (done_in shape.now h entry) self.new) }
    {
        if has_form(shape, entry) {
            self.follow_formed(shape, entry)
        } else {
            Err(Broken::Syntax)
        }
    }

    fn follow_formed(&mut self, shape: &Shape, entry: Entry) -> Result<Message, Broken>
        requires session { IsSession shape.now }
        requires judge { IsJudge shape.now self.old }
        requires judged { HasJudged shape.now self.old }
        requires form { has_form shape.now entry ≡ true }
        ensures broken { (h : History) → length h < 2 ^ 63 → Judged shape.now h self.old → result_err result ≡ rules.first_broken shape.now h entry }
        ensures about { IfOk result (λ about. (h : History) → length h < 2 ^ 63 → Judged shape.now h self.old → IsAbout shape.now h entry about) }
        ensures there { IfOk result (IsThere shape.now) }
        ensures judge { IfOk result (λ about. IsJudge shape.now self.new) }
        ensures judged { IfOk result (λ about. (h : History) → length h < 2 ^ 63 → Judged shape.now h self.old → Judged shape.now (done_in shape.now h entry) self.new) }
    {
        let brought = self.queues.brought(entry);
        let follows = self.tracker.step(shape, entry, brought);
        match self.counts.judge(shape, entry, follows) {
            Some(rule) => Err(rule),
            None => {
                let about = follows.unwrap_or(Message::Nothing);
                self.queues.note(entry, about);
                Ok(about)
            }
        }
    }
}
