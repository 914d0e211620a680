ghost use Rattle.std.specs.Prelude.{◌≡◌, ◌<◌, ◌^◌, ◌∷◌, ◌||◌, [], not, find, length, unwrap_or, IfOk, Some, None, true};
ghost use Rattle.std.specs.Option.{option_map};
ghost use Rattle.step_law.specs.declared.entry.Kind.TheVariants.{Last};
ghost use Rattle.record_law.specs.declared.shape.Broken.{Broken};
ghost use Rattle.record_law.specs.declared.shape.Broken.TheVariants.{Ring, Full, Room, Look, Holder, Class, End};
ghost use Rattle.record_law.specs.Entries.{is_kind};
ghost use Rattle.record_law.specs.Message.{History};
ghost use Rattle.record_law.specs.Message.Message.{nothing};
ghost use Rattle.record_law.specs.Protocol.{about_in, follow_in, done_in};
ghost use Rattle.record_law.specs.Rules as rules;
ghost use Rattle.record_law.specs.There.{has_form};
ghost use Rattle.record_terms.specs.Message.{meaning_of};
ghost use Rattle.record_terms.specs.Session.{IsSession};

use lv_base::NoMemory;
use record_counts::{Looks, OpenCalls, Owners, RingCounts, Waits, has_form};
use record_law::{Broken, Shape};
use record_terms::Message;
use std::alloc::Global;
use step_law::{Actor, Entry, Kind};

/// What the rules of a record need of the entries so far, none of which broke one. The order of work of each actor is judged elsewhere.
#[derive(Drop)]
pub struct Counts {
    pub(crate) rings: RingCounts,
    pub(crate) looks: Looks,
    pub(crate) owners: Owners,
    pub(crate) calls: OpenCalls,
    pub(crate) waits: Waits,
}

impl Counts {
    ghost use Rattle.record_rules.specs.Counts.{TellsCounts, IsFollowing, IsAsked};

    /// No entry came yet.
    pub fn new(alloc: Global, shape: &Shape) -> Result<Counts, NoMemory>
        requires { IsSession shape.now }
        ensures { IfOk result (TellsCounts shape.now []) }
    {
        Ok(Counts {
            rings: RingCounts::new(alloc, shape)?,
            looks: Looks::new(alloc, shape)?,
            owners: Owners::new(alloc, shape)?,
            calls: OpenCalls::new(alloc, shape)?,
            waits: Waits::new(alloc, shape)?,
        })
    }

    /// The first rule that an entry breaks. `follows` is what the entry is about, where the order of work of its actor lets it follow.
    pub fn first_broken(
        &self,
        shape: &Shape,
        entry: Entry,
        follows: Option<Message>,
    ) -> Option<Broken>
        requires { IsSession shape.now }
        ensures { (h : History) → TellsCounts shape.now h self.now → IsFollowing shape.now h entry follows → result ≡ rules.first_broken shape.now h entry }
    {
        let is_next = self.is_next(shape, entry, follows);
        let about = about_of(follows);
        if !has_form(shape, entry) {
            Some(Broken::Syntax)
        } else if !keeps_order(entry, is_next) {
            Some(Broken::Order)
        } else {
            self.first_on_rings(shape, entry, about, is_next)
        }
    }

    // Whether its actor may make an entry next.
    fn is_next(&self, shape: &Shape, entry: Entry, follows: Option<Message>) -> bool
        requires { IsSession shape.now }
        ensures { (h : History) → TellsCounts shape.now h self.now → IsFollowing shape.now h entry follows → result ≡ rules.is_next shape.now h entry }
    {
        follows.is_some() && self.waits.may_come(&self.rings, shape, entry)
    }

    // The first broken rule from that on takes on.
    fn first_on_rings(
        &self,
        shape: &Shape,
        entry: Entry,
        about: Message,
        is_next: bool,
    ) -> Option<Broken>
        requires { IsSession shape.now }
        ensures { (h : History) → TellsCounts shape.now h self.now → IsAsked shape.now h entry about is_next → result ≡ find (λ broken. not (rules.keeps shape.now h entry broken)) (Ring ∷ Full ∷ Room ∷ Look ∷ Holder ∷ Class ∷ End ∷ []) }
    {
        if !self.rings.finds_message(entry) {
            Some(Broken::Ring)
        } else if !self.rings.is_really_full(shape, entry) {
            Some(Broken::Full)
        } else if !self.rings.has_room(shape, entry) {
            Some(Broken::Room)
        } else {
            self.first_of_rest(shape, entry, about, is_next)
        }
    }

    // The first broken rule from that on looks on.
    fn first_of_rest(
        &self,
        shape: &Shape,
        entry: Entry,
        about: Message,
        is_next: bool,
    ) -> Option<Broken>
        requires { IsSession shape.now }
        ensures { (h : History) → TellsCounts shape.now h self.now → IsAsked shape.now h entry about is_next → result ≡ find (λ broken. not (rules.keeps shape.now h entry broken)) (Look ∷ Holder ∷ Class ∷ End ∷ []) }
    {
        if !self.keeps_looks(shape, entry) {
            Some(Broken::Look)
        } else if !self.owners.owns_all(shape, entry, about) {
            Some(Broken::Holder)
        } else if !self.calls.keeps_class(&self.waits, entry) {
            Some(Broken::Class)
        } else if !keeps_end(entry, is_next) {
            Some(Broken::End)
        } else {
            None
        }
    }

    fn keeps_looks(&self, shape: &Shape, entry: Entry) -> bool
        requires { IsSession shape.now }
        ensures { (h : History) → TellsCounts shape.now h self.now → has_form shape.now entry ≡ true → result ≡ rules.keeps shape.now h entry Look }
    {
        let actor = Actor::from_number(entry.actor);
        self.looks.shows_enough(&self.rings, shape, entry)
            && self.looks.last_shows_no_more(&self.rings, actor)
    }

    /// Goes on by an entry that breaks no rule, and what it is about.
    pub fn go_on(&mut self, shape: &Shape, entry: Entry, about: Message)
        requires { IsSession shape.now }
        ensures { (h : History) → length h < 2 ^ 63 → TellsCounts shape.now h self.old → rules.first_broken shape.now h entry ≡ None → meaning_of about ≡ about_in (follow_in shape.now h entry) → TellsCounts shape.now (done_in shape.now h entry) self.new }
    {
        self.rings.go_on(shape, entry);
        self.looks.go_on(entry);
        self.owners.go_on(shape, entry, about);
        self.calls.go_on(entry);
        self.waits.go_on(entry);
    }

    /// The first rule that an entry breaks; where it breaks none, the judge goes on by it.
    pub fn judge(&mut self, shape: &Shape, entry: Entry, follows: Option<Message>) -> Option<Broken>
        requires { IsSession shape.now }
        ensures broken { (h : History) → TellsCounts shape.now h self.old → IsFollowing shape.now h entry follows → result ≡ rules.first_broken shape.now h entry }
        ensures kept { (h : History) → result ≡ None → length h < 2 ^ 63 → TellsCounts shape.now h self.old → IsFollowing shape.now h entry follows → TellsCounts shape.now (done_in shape.now h entry) self.new }
        ensures same { (broken : Broken) → result ≡ Some broken → self.new ≡ self.old }
    {
        let broken = self.first_broken(shape, entry, follows);
        if broken.is_none() {
            self.go_on(shape, entry, about_of(follows));
        }
        broken
    }
}

fn is_last(entry: Entry) -> bool
    ensures { result ≡ is_kind Last entry }
{
    matches!(entry.kind, Kind::Last)
}

fn keeps_order(entry: Entry, is_next: bool) -> bool
    ensures { result ≡ (is_kind Last entry || is_next) }
{
    is_last(entry) || is_next
}

// An end of the record comes only once its actor may make it.
fn keeps_end(entry: Entry, is_next: bool) -> bool
    ensures { result ≡ (not (is_kind Last entry) || is_next) }
{
    !is_last(entry) || is_next
}

// What an entry is about; nothing where it doesn't follow.
fn about_of(follows: Option<Message>) -> Message
    ensures { meaning_of result ≡ unwrap_or (option_map meaning_of follows) nothing }
{
    match follows {
        Some(about) => about,
        None => Message::Nothing,
    }
}
