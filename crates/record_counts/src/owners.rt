ghost use Rattle.std.specs.Prelude.{◌≡◌, ◌==◌, ◌+◌, ◌<◌, ◌≤◌, ◌^◌, ◌&&◌, ◌||◌, if◌then◌else◌, ℕ, [], ◌∷◌, length, replicate, IfOk, true};
ghost use Rattle.std.specs.List.{list_all};
ghost use Rattle.std.specs.Option.{option_map_or, option_to_list};
ghost use Rattle.step_law.specs.declared.actor.Actor.TheVariants.{Control};
ghost use Rattle.step_law.specs.declared.call.Call.TheVariants.{Activate};
ghost use Rattle.step_law.specs.declared.entry.Kind.TheVariants.{Take, Send};
ghost use Rattle.step_law.specs.Call.{call_at};
ghost use Rattle.step_law.specs.Entry.{end_of, join};
ghost use Rattle.step_law.specs.Ring.{ring_number, ring_at};
ghost use Rattle.record_law.specs.Entries.{same_entry};
ghost use Rattle.record_law.specs.Message.{History};
ghost use Rattle.record_law.specs.Owners as spec;
ghost use Rattle.record_law.specs.There.{has_form};
ghost use Rattle.record_terms.specs.Message.{meaning_of};
ghost use Rattle.record_terms.specs.Session.{IsSession};
ghost use Rattle.record_counts.specs.Step.{step_of};
ghost use Rattle.record_counts.specs.Table.{IsTable};
ghost use Rattle.record_counts.specs.Owners as counted;

use lv_base::{Items, NoMemory};
use record_law::Shape;
use record_terms::{Message, is_by, is_on, is_same, worker_of};
use std::alloc::Global;
use std::marker::Model;
use step_law::{Actor, Call, Entry, Kind, Ring};

/// Who owns a part of an instance.
#[derive(Clone, Copy)]
pub enum Owner {
    /// Who has it while the blocks are played: audio a front, the instance's worker a back.
    Home,
    Control,
    /// Nobody: a message carries it.
    Nobody,
}

/// The front of an instance, or its back.
#[derive(Clone, Copy)]
pub enum Part {
    Front(u32),
    Back(u32),
}

impl Part {
    ghost use Rattle.std.specs.Prelude.{◌≡◌, ◌<◌, ◌^◌};
    ghost use Rattle.step_law.specs.Ring.{ring_number};
    ghost use Rattle.record_law.specs.Owners as spec;
    ghost use Rattle.record_terms.specs.Session.{IsSession};
    ghost use Rattle.record_counts.specs.Owners.{part_of};

    fn inst(self) -> u32
        ensures { result ≡ spec.inst_of (part_of self) }
    {
        match self {
            Part::Front(inst) | Part::Back(inst) => inst,
        }
    }

    /// Who has it while the blocks are played.
    fn home(self, shape: &Shape) -> Actor
        ensures { result ≡ spec.home_of shape.now (part_of self) }
    {
        match self {
            Part::Front(_) => Actor::Audio,
            Part::Back(inst) => Actor::Worker(worker_of(shape, inst)),
        }
    }

    /// The ring by which it goes to control.
    fn ring_away(self, shape: &Shape) -> Ring
        requires { IsSession shape.now }
        ensures ring { result ≡ spec.ring_away shape.now (part_of self) }
        ensures fits { ring_number result < 2 ^ 32 }
    {
        match self {
            Part::Front(_) => Ring::AudioToControl,
            Part::Back(inst) => Ring::WorkerToControl(worker_of(shape, inst)),
        }
    }

    /// The ring by which it comes back.
    fn ring_home(self, shape: &Shape) -> Ring
        requires { IsSession shape.now }
        ensures ring { result ≡ spec.ring_home shape.now (part_of self) }
        ensures fits { ring_number result < 2 ^ 32 }
    {
        match self {
            Part::Front(_) => Ring::ControlToAudio,
            Part::Back(inst) => Ring::ControlToWorker(worker_of(shape, inst)),
        }
    }
}

/// The owners of both parts of an instance.
#[derive(Clone, Copy)]
pub struct PartOwners {
    pub front: Owner,
    pub back: Owner,
}

/// The owners of the parts of all instances.
#[derive(Drop)]
pub struct Owners {
    insts: Items<PartOwners>,
}

impl Model for Owners {
    ghost use Rattle.std.specs.Prelude.{List};
    ghost use Rattle.record_counts.specs.declared.owners.PartOwners.{PartOwners};

    ghost Value = { List PartOwners };

    ghost view = { λ it. it.insts };
}

impl Owners {
    ghost use Rattle.record_counts.specs.declared.owners.PartOwners.{PartOwners};
    ghost use Rattle.record_counts.specs.Owners.{part_of, next_owners, owner_at, is_carrying, TellsOwners, IsAboutThere};

    /// Control has made no instance yet, and owns all parts.
    pub fn new(alloc: Global, shape: &Shape) -> Result<Owners, NoMemory>
        ensures { IfOk result (TellsOwners shape.now []) }
    {
        let none = PartOwners {
            front: Owner::Control,
            back: Owner::Control,
        };
        let insts = vec![in alloc; none; shape.insts.len()]?;
        Ok(Owners {
            insts: Items::from_vec(insts),
        })
    }

    /// Goes on by an entry and what it is about.
    pub fn go_on(&mut self, shape: &Shape, entry: Entry, about: Message)
        requires { IsSession shape.now }
        ensures { (h : History) → TellsOwners shape.now h self.old → TellsOwners shape.now (step_of entry (meaning_of about) ∷ h) self.new }
    {
        match entry.kind {
            Kind::Send | Kind::Take => self.carry(shape, entry, about),
            Kind::End => self.put(shape, entry.b, entry, about),
            Kind::Join => self.put_all(shape, entry, about),
            _ => {}
        }
    }

    fn carry(&mut self, shape: &Shape, entry: Entry, about: Message)
        requires { IsSession shape.now }
        ensures { (h : History) → is_carrying entry.kind ≡ true → TellsOwners shape.now h self.old → TellsOwners shape.now (step_of entry (meaning_of about) ∷ h) self.new }
    {
        match part_in(about) {
            Some(inst) => self.put(shape, inst, entry, about),
            None => {}
        }
    }

    fn put_all(&mut self, shape: &Shape, entry: Entry, about: Message)
        requires { IsSession shape.now }
        ensures each { (f : ℕ → PartOwners) → length self.old ≡ length shape.now.insts → IsTable f self.old → IsTable (λ i. next_owners shape.now (step_of entry (meaning_of about)) i (f i)) self.new }
        ensures all { length self.new ≡ length self.old }
    {
        let count = shape.insts.len() as u32;
        for inst in 0..count {
            self.put(shape, inst, entry, about);
        }
    }

    // The owners of the parts of one instance go on.
    fn put(&mut self, shape: &Shape, inst: u32, entry: Entry, about: Message)
        requires { IsSession shape.now }
        ensures each { (f : ℕ → PartOwners) → IsTable f self.old → IsTable (λ i. if i == inst then next_owners shape.now (step_of entry (meaning_of about)) i (f i) else f i) self.new }
        ensures all { length self.new ≡ length self.old }
    {
        if let Some(owners) = self.insts.get(inst as usize).copied() {
            let front = next_owner(shape, Part::Front(inst), entry, about, owners.front);
            let back = next_owner(shape, Part::Back(inst), entry, about, owners.back);
            self.insts.set(inst as usize, PartOwners { front, back });
        }
    }

    /// Whether the actor of an entry owns the parts that the entry needs.
    pub fn owns_all(&self, shape: &Shape, entry: Entry, about: Message) -> bool
        ensures { (h : History) → TellsOwners shape.now h self.now → has_form shape.now entry ≡ true → IsAboutThere shape.now (meaning_of about) → result ≡ spec.owns_all shape.now h entry (meaning_of about) }
    {
        match entry.kind {
            Kind::Begin | Kind::End => self.owns_called(shape, entry),
            Kind::Send => self.owns_sent(shape, entry, about),
            _ => true,
        }
    }

    fn owns_called(&self, shape: &Shape, entry: Entry) -> bool
        ensures { (h : History) → TellsOwners shape.now h self.now → entry.b < length shape.now.insts → result ≡ list_all (spec.owns shape.now h entry) (option_map_or (λ call. spec.parts_of call entry.b) (call_at entry.a) []) }
    {
        let front = self.owns(shape, entry, Part::Front(entry.b));
        let back = self.owns(shape, entry, Part::Back(entry.b));
        let Some(call) = Call::from_number(entry.a) else {
            return true;
        };
        if call.is_by_audio() {
            front
        } else if call.is_by_worker() {
            back
        } else {
            front && back
        }
    }

    fn owns_sent(&self, shape: &Shape, entry: Entry, about: Message) -> bool
        ensures { (h : History) → TellsOwners shape.now h self.now → IsAboutThere shape.now (meaning_of about) → result ≡ list_all (spec.owns shape.now h entry) (spec.parts_in (ring_at entry.a) (meaning_of about)) }
    {
        let Some(inst) = part_in(about) else {
            return true;
        };
        match Ring::from_number(entry.a) {
            Ring::ControlToAudio | Ring::AudioToControl => {
                self.owns(shape, entry, Part::Front(inst))
            }
            Ring::ControlToWorker(_) | Ring::WorkerToControl(_) => {
                self.owns(shape, entry, Part::Back(inst))
            }
            _ => true,
        }
    }

    // Whether the actor of an entry owns a part.
    fn owns(&self, shape: &Shape, entry: Entry, part: Part) -> bool
        ensures { (h : History) → TellsOwners shape.now h self.now → spec.inst_of (part_of part) < length shape.now.insts → result ≡ spec.owns shape.now h entry (part_of part) }
    {
        match self.owner(part) {
            Owner::Home => is_by(part.home(shape), entry),
            Owner::Control => is_by(Actor::Control, entry),
            Owner::Nobody => false,
        }
    }

    fn owner(&self, part: Part) -> Owner
        ensures { (shape : _) (h : History) → TellsOwners shape h self.now → spec.inst_of (part_of part) < length shape.insts → result ≡ owner_at shape (part_of part) h }
    {
        match self.insts.get(part.inst() as usize) {
            Some(owners) => match part {
                Part::Front(_) => owners.front,
                Part::Back(_) => owners.back,
            },
            None => Owner::Nobody,
        }
    }
}

// The owner of a part after an entry.
fn next_owner(shape: &Shape, part: Part, entry: Entry, about: Message, before: Owner) -> Owner
    requires { IsSession shape.now }
    ensures { result ≡ counted.next_owner shape.now (counted.part_of part) (step_of entry (meaning_of about)) before }
{
    if is_sent(shape, part, entry, about) {
        Owner::Nobody
    } else if comes_to_control(shape, part, entry, about) {
        Owner::Control
    } else if comes_home(shape, part, entry, about) {
        Owner::Home
    } else {
        before
    }
}

fn is_sent(shape: &Shape, part: Part, entry: Entry, about: Message) -> bool
    requires { IsSession shape.now }
    ensures { let it = counted.part_of part in let x = step_of entry (meaning_of about) in result ≡ (spec.carries Send (spec.ring_away shape.now it) (spec.inst_of it) x || spec.carries Send (spec.ring_home shape.now it) (spec.inst_of it) x) }
{
    carries(Kind::Send, part.ring_away(shape), part.inst(), entry, about)
        || carries(Kind::Send, part.ring_home(shape), part.inst(), entry, about)
}

fn comes_to_control(shape: &Shape, part: Part, entry: Entry, about: Message) -> bool
    requires { IsSession shape.now }
    ensures { let it = counted.part_of part in let x = step_of entry (meaning_of about) in result ≡ (spec.carries Take (spec.ring_away shape.now it) (spec.inst_of it) x || same_entry join entry) }
{
    carries(Kind::Take, part.ring_away(shape), part.inst(), entry, about)
        || is_same(Entry::join(), entry)
}

fn comes_home(shape: &Shape, part: Part, entry: Entry, about: Message) -> bool
    requires { IsSession shape.now }
    ensures { let it = counted.part_of part in let x = step_of entry (meaning_of about) in result ≡ (spec.carries Take (spec.ring_home shape.now it) (spec.inst_of it) x || same_entry (end_of Control Activate (spec.inst_of it)) entry) }
{
    let activated = Entry::end(Actor::Control, Call::Activate, part.inst());
    carries(Kind::Take, part.ring_home(shape), part.inst(), entry, about)
        || is_same(activated, entry)
}

// Whether an entry sends or takes a part of an instance on a ring.
fn carries(kind: Kind, ring: Ring, inst: u32, entry: Entry, about: Message) -> bool
    requires { ring_number ring < 2 ^ 32 }
    ensures { result ≡ spec.carries kind ring inst (step_of entry (meaning_of about)) }
{
    is_on(kind, ring, entry) && is_part_of(inst, about)
}

fn is_part_of(inst: u32, about: Message) -> bool
    ensures { result ≡ spec.is_part_of inst (meaning_of about) }
{
    match about {
        Message::Part(other) | Message::Give(other) => other == inst,
        _ => false,
    }
}

// The instance of which a message is a part.
fn part_in(about: Message) -> Option<u32>
    ensures { option_to_list result ≡ spec.insts_in (meaning_of about) }
{
    match about {
        Message::Part(inst) | Message::Give(inst) => Some(inst),
        _ => None,
    }
}
