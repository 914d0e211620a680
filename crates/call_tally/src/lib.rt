//! The entries of a whole call, counted as a run goes on.
#![tactic(auto)]

ghost use Rattle.std.specs.Prelude.{◌≡◌, ℕ, ◌+◌, ◌<◌, ◌^◌, length, map};
ghost use Rattle.step_law.specs.declared.entry.Entry.{Entry as EntryValue};
ghost use Rattle.graph_order.specs.declared.setup.Setup.{Setup};
ghost use Rattle.record_law.specs.Message.{History};
ghost use Rattle.record_terms.specs.Message.{meaning_of};
ghost use Rattle.play_known.specs.InCall.{then_steps};
ghost use Rattle.run_summary.specs.Tallies.{Tallies};
ghost use Rattle.told_calls.specs.Steps as steps;

use record_terms::Message;
use run_summary::Tally;
use step_law::{Entry, Kind};

/// Goes on by the entries of a call, which bear their tickets, where the call is made for a message. No entries are no call.
pub fn note_call(tally: &mut Tally, entries: &[(u64, Entry)], about: Message)
    ensures { (setup : Setup) (h : History) (failed : ℕ → ℕ) → length h + length entries.now < 2 ^ 63 → Tallies setup h failed tally.old → Tallies setup (then_steps h (steps.steps_for (meaning_of about) (map (λ (mark : ℕ × EntryValue). mark.1) entries.now))) failed tally.new }
{
    match entries.split_first() {
        None => {}
        Some(((_, begin), later)) => {
            tally.note(*begin, about);
            note_later(tally, later);
        }
    }
}

/// Goes on by the entries after a call's begin.
fn note_later(tally: &mut Tally, entries: &[(u64, Entry)])
    ensures { (setup : Setup) (h : History) (failed : ℕ → ℕ) → length h + length entries.now < 2 ^ 63 → Tallies setup h failed tally.old → Tallies setup (then_steps h (map steps.later_step (map (λ (mark : ℕ × EntryValue). mark.1) entries.now))) failed tally.new }
{
    for (_, entry) in entries {
        tally.note(*entry, message_in(entry.kind));
    }
}

/// What an entry of this kind is about in a call, after its begin.
fn message_in(kind: Kind) -> Message
    ensures { meaning_of result ≡ steps.message_in kind }
{
    match kind {
        Kind::End => Message::Nothing,
        _ => Message::Body,
    }
}
