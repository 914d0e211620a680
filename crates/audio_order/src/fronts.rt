ghost use Rattle.std.specs.Prelude.{◌≡◌, ◌∷◌, ◌<◌, ◌≤◌, ℕ, List, length, replicate, position, IfOk};
ghost use Rattle.std.specs.List.{position_or_len};
ghost use Rattle.record_law.specs.Audio as law;
ghost use Rattle.record_law.specs.Message.{History};
ghost use Rattle.record_terms.specs.Message.{meaning_of};
ghost use Rattle.audio_order.specs.Fronts.{place_after, has_front, is_wanted, AreFronts};

use lv_base::{Items, NoMemory};
use record_terms::{Message, is_on};
use std::alloc::Global;
use step_law::{Entry, Kind, Ring};

/// Where the front of an instance is.
#[derive(Clone, Copy)]
pub enum Place {
    /// Audio has it.
    Here,
    /// Audio has it, and control has asked for it.
    Wanted,
    /// It is away.
    Away,
}

/// A front that an entry moves, and where it is then.
#[derive(Clone, Copy)]
pub(crate) struct Moved {
    pub(crate) inst: u32,
    pub(crate) place: Place,
}

/// All fronts are audio's.
pub(crate) fn all_here(alloc: Global, count: usize) -> Result<Items<Place>, NoMemory>
    ensures { IfOk result (λ fronts. fronts ≡ replicate count Place.Here) }
{
    let fronts = vec![in alloc; Place::Here; count]?;
    Ok(Items::from_vec(fronts))
}

/// Whether audio has the front of an instance.
pub(crate) fn has_front(fronts: &Items<Place>, inst: u32) -> bool
    ensures { result ≡ has_front fronts.now inst }
{
    matches!(fronts.get(inst as usize), Some(Place::Here))
}

/// How many fronts stand before the first that control has asked for.
pub(crate) fn first_wanted(fronts: &[Place]) -> usize
    ensures value { result ≡ position_or_len is_wanted fronts.now }
    ensures within { result ≤ length fronts.now }
{
    wanted_at(fronts).unwrap_or(fronts.len())
}

fn wanted_at(fronts: &[Place]) -> Option<usize>
    ensures { result ≡ position is_wanted fronts.now }
{
    fronts.iter().position(|place| is_wanted(*place))
}

/// How many instances of a plan stand before the first whose front audio has.
pub(crate) fn first_present(fronts: &Items<Place>, plan: &[u32]) -> usize
    ensures value { result ≡ position_or_len (has_front fronts.now) plan.now }
    ensures within { result ≤ length plan.now }
{
    present_at(fronts, plan).unwrap_or(plan.len())
}

fn present_at(fronts: &Items<Place>, plan: &[u32]) -> Option<usize>
    ensures { result ≡ position (has_front fronts.now) plan.now }
{
    plan.iter().position(|inst| has_front(fronts, *inst))
}

/// Notes what an entry of audio's does to the fronts: audio takes what control sends, and sends control a front.
pub(crate) fn note_front(fronts: &mut Items<Place>, entry: Entry, about: Message)
    ensures count { length fronts.new ≡ length fronts.old }
    ensures noted { (h : History) → AreFronts fronts.old h → AreFronts fronts.new (record { entry = entry; about = meaning_of about } ∷ h) }
{
    if let Some(moved) = moved_by(entry, about) {
        let inst = moved.inst as usize;
        if inst < fronts.len() {
            fronts.set(inst, moved.place);
        }
    }
}

fn is_wanted(place: Place) -> bool
    ensures { result ≡ is_wanted place }
{
    matches!(place, Place::Wanted)
}

fn moved_by(entry: Entry, about: Message) -> Option<Moved>
    ensures { (inst : ℕ) (before : law.Place)
        → law.front_after inst (record { entry = entry; about = meaning_of about }) before ≡ place_after result inst before }
{
    if is_on(Kind::Take, Ring::ControlToAudio, entry) {
        moved_to_audio(about)
    } else if is_on(Kind::Send, Ring::AudioToControl, entry) {
        moved_to_control(about)
    } else {
        None
    }
}

fn moved_to_audio(about: Message) -> Option<Moved>
    ensures { (inst : ℕ) (before : law.Place) → law.taken_front inst (meaning_of about) before ≡ place_after result inst before }
{
    match about {
        Message::Lend(inst) => Some(Moved {
            inst,
            place: Place::Wanted,
        }),
        Message::Give(inst) => Some(Moved {
            inst,
            place: Place::Here,
        }),
        _ => None,
    }
}

fn moved_to_control(about: Message) -> Option<Moved>
    ensures { (inst : ℕ) (before : law.Place) → law.sent_front inst (meaning_of about) before ≡ place_after result inst before }
{
    match about {
        Message::Part(inst) => Some(Moved {
            inst,
            place: Place::Away,
        }),
        _ => None,
    }
}
