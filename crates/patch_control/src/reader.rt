ghost use Rattle.std.specs.Prelude.{◌≡◌, ◌≤◌, ◌<◌, ◌^◌, ◌++◌, List, ℕ, length};
ghost use Rattle.atom_core.specs.Value.{Value, Parts};
ghost use Rattle.atom_core.specs.Spelling.{u32};
ghost use Rattle.atom_core.specs.Answer.{Spells};
ghost use Rattle.atom_core.specs.Atoms.{SpellProperties};
ghost use Rattle.patch_control.specs.Message.{message_of, of_kind, Reads};

use crate::found::Found;
use crate::message::{Message, PatchFault};
use crate::words::{GET, PUT, SET};
use atom_core::{AtomProperties, AtomView};

/// The type of an object, by its body.
#[tactic(auto, unfolding(atom_core::specs::Spelling::u32))]
fn kind_in(body: &[u8]) -> u32
    requires { 8 ≤ length body.now }
    ensures { (id kind : ℕ) (rest : List ℕ) → kind < 2 ^ 32 → body.now ≡ (u32 id ++ u32 kind) ++ rest → result ≡ kind }
{
    u32::from_le_bytes([body[4], body[5], body[6], body[7]])
}

/// What an object of a type says with its properties.
fn read_object<'a>(kind: u32, properties: AtomProperties<'a>) -> Result<Message<'a>, PatchFault>
    ensures { (parts : Parts) → SpellProperties properties.entry parts → Reads result (of_kind kind parts) }
{
    match kind {
        GET => Found::of(properties).get(),
        SET => Found::of(properties).set(),
        PUT => Found::of(properties).put(),
        _ => Ok(Message::Other),
    }
}

/// What an atom says as a message of the patch extension ("patch:Get", "patch:Set" and "patch:Put"). The properties may stand in any order,
/// and further ones are ignored.
pub fn read_message(view: AtomView<'_>) -> Result<Message<'_>, PatchFault>
    ensures { (v : Value) → Spells view.entry.bytes.now v → Reads result (message_of v) }
{
    match view.properties() {
        Some(properties) => read_object(kind_in(view.body()), properties),
        None => Err(PatchFault::NotPatch),
    }
}
