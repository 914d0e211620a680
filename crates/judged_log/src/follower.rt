ghost use Rattle.std.specs.Prelude.{◌≡◌, ◌<◌, ◌^◌, List, [], ◌∷◌, ◌++◌, length, IfOk};
ghost use Rattle.std.specs.Result.{result_err};
ghost use Rattle.step_law.specs.declared.entry.Entry.{Entry};
ghost use Rattle.record_law.specs.declared.shape.Shape.{Shape};
ghost use Rattle.record_law.specs.Lawful.{is_ended};
ghost use Rattle.record_law.specs.Protocol.{history_of};
ghost use Rattle.record_terms.specs.Session.{IsSession};
ghost use Rattle.order_base.specs.There.{IsThere};
ghost use Rattle.record_legal.specs.Judging.{IsAbout};
ghost use Rattle.judged_log.specs.Followed.{IsFollowed, HasFollowed, next_broken};

use lv_base::NoMemory;
use record_law::{Broken, Shape};
use record_legal::Judge;
use record_terms::{Message, is_kind};
use std::alloc::Global;
use step_record::{Entry, Kind};

/// What is kept of a record so far, none of whose entries broke a rule.
#[derive(Drop)]
pub struct Follower {
    judge: Judge,
    ended: bool,
}

impl Follower {
    /// No entry came yet.
    pub fn new(alloc: Global, shape: &Shape) -> Result<Self, NoMemory>
        requires { IsSession shape.now }
        ensures { IfOk result (IsFollowed shape.now []) }
    {
        Ok(Follower {
            judge: Judge::new(alloc, shape)?,
            ended: false,
        })
    }

    /// Whether the record has its end.
    pub fn has_ended(&self) -> bool
        ensures { (shape : Shape) (steps : List Entry) → IsFollowed shape steps self.now → result ≡ is_ended steps }
    {
        self.ended
    }

    /// What the next entry is about, where it breaks no rule; then it is followed. Else the first rule that is broken by it, after which
    /// nothing more can be followed. Where the record has its end, that is the rule which asks the end to be the last.
    pub fn follow(&mut self, shape: &Shape, entry: Entry) -> Result<Message, Broken>
        requires session { IsSession shape.now }
        requires followed { HasFollowed shape.now self.old }
        ensures broken { (steps : List Entry) → length steps < 2 ^ 63 → IsFollowed shape.now steps self.old → result_err result ≡ next_broken shape.now steps entry }
        ensures about { IfOk result (λ about. (steps : List Entry) → length steps < 2 ^ 63 → IsFollowed shape.now steps self.old → IsAbout shape.now (history_of shape.now steps) entry about) }
        ensures there { IfOk result (IsThere shape.now) }
        ensures followed { IfOk result (λ about. (steps : List Entry) → length steps < 2 ^ 63 → IsFollowed shape.now steps self.old → IsFollowed shape.now (steps ++ entry ∷ []) self.new) }
    {
        if self.ended {
            return Err(Broken::Syntax);
        }
        let about = self.judge.follow(shape, entry)?;
        self.ended = is_kind(Kind::Last, entry);
        Ok(about)
    }
}
