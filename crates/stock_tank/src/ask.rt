ghost use Rattle.std.specs.Prelude.{◌≡◌, ◌==◌, if◌then◌else◌};
ghost use Rattle.atom_core.specs.Value.{Value};
ghost use Rattle.atom_core.specs.Answer.{Spells};
ghost use Rattle.atom_core.specs.Readers.{fixed_of};
ghost use Rattle.stock_tank.specs.declared.ask.Ask.TheVariants.{Nothing};
ghost use Rattle.patch_control.specs.Message.{Content, HasContent};
ghost use Rattle.stock_tank.specs.Requests.{asked, set_to, says_message, ask_of, HasValue};

use atom_core::AtomView;
use lv_base::Fixed;
use patch_control::{Message, read_message};

/// What an answer tells: the level alone, or all properties, of which it is the only one.
#[derive(Clone, Copy)]
pub enum Wanted {
    Level,
    All,
}

/// What an event asks of the level.
#[derive(Clone, Copy)]
pub enum Ask {
    Set(Fixed),
    Get(Wanted),
    Nothing,
}

// What a Get of a property asks.
fn asked(key: u32, property: u32) -> Ask
    ensures { result ≡ asked key property }
{
    if property == key {
        Ask::Get(Wanted::Level)
    } else if property == 0 {
        Ask::Get(Wanted::All)
    } else {
        Ask::Nothing
    }
}

// What a Set to a value asks.
fn set_to(value: Option<Fixed>) -> Ask
    ensures { result ≡ set_to value }
{
    match value {
        Some(level) => Ask::Set(level),
        None => Ask::Nothing,
    }
}

// What a Set of a property asks.
fn set_by(key: u32, property: u32, value: AtomView<'_>) -> Ask
    ensures { (v : Value) → Spells value.entry.bytes.now v → result ≡ (if property == key then set_to (fixed_of v) else Nothing) }
{
    if property == key {
        set_to(value.fixed())
    } else {
        Ask::Nothing
    }
}

// What a message asks.
fn says(key: u32, message: Message<'_>) -> Ask
    ensures { (content : Content) → HasContent message.entry content → HasValue content → result ≡ says_message key content }
{
    match message {
        Message::Get { property, .. } => asked(key, property),
        Message::Set {
            property,
            value,
            ..
        } => set_by(key, property, value),
        _ => Ask::Nothing,
    }
}

/// What the atom of an event asks.
pub(crate) fn ask_of(key: u32, atom: AtomView<'_>) -> Ask
    ensures { (v : Value) → Spells atom.entry.bytes.now v → result ≡ ask_of key v }
{
    match read_message(atom) {
        Ok(message) => says(key, message),
        Err(_) => Ask::Nothing,
    }
}
