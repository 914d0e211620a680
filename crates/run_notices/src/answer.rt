ghost use Rattle.std.specs.Prelude.{◌≡◌, ◌+◌, ◌<◌, ◌≤◌, [], ◌∷◌, if◌then◌else◌, length, slice_range, IfSome, IfNone};
ghost use Rattle.atom_core.specs.Value.{Value};
ghost use Rattle.atom_core.specs.Spelling.{kind_of, body_of};
ghost use Rattle.atom_core.specs.Answer.{Spells};
ghost use Rattle.session_play.specs.Patch.{is_message};
ghost use Rattle.run_notices.specs.Answers.{answers_in};

use atom_core::{AtomView, Events};
use patch_control::read_message;

/// Whether an atom is a patch message.
fn is_answer(atom: AtomView<'_>) -> bool
    ensures { (value : Value) → Spells atom.entry.bytes.now value → result ≡ is_message (kind_of value) (body_of value) }
{
    read_message(atom).is_ok()
}

/// The first of some events: whether its atom is a patch message, and the bytes of that atom, without what fills it up.
fn first<'a>(events: &mut Events<'a>) -> Option<(bool, &'a [u8])>
    ensures none { IfNone result (answers_in events.old ≡ []) }
    ensures some { IfSome result (λ x. answers_in events.old ≡ (if x.0 then x.1.now ∷ answers_in events.new else answers_in events.new)) }
    ensures less { IfSome result (λ _. length events.new < length events.old) }
{
    let bytes = events.bytes();
    let (_, atom) = events.next()?;
    let whole = atom_in(bytes, atom.body());
    Some((is_answer(atom), whole))
}

/// The bytes of the atom of the first of some events, by its body: they stand after the event's time.
fn atom_in<'a>(bytes: &'a [u8], body: &[u8]) -> &'a [u8]
    requires { 16 + length body.now ≤ length bytes.now }
    ensures { result.now ≡ slice_range bytes.now 8 (16 + length body.now) }
{
    &bytes[8..16 + body.len()]
}

/// The next answer among some events.
pub fn next_answer<'a>(events: &mut Events<'a>) -> Option<&'a [u8]>
    ensures none { IfNone result (answers_in events.old ≡ []) }
    ensures some { IfSome result (λ answer. answers_in events.old ≡ answer.now ∷ answers_in events.new) }
{
    while let Some((told, atom)) = first(events) {
        if told {
            return Some(atom);
        }
    }
    None
}
