ghost use Rattle.std.specs.Prelude.{◌≡◌, ◌≤◌, Some, IfSome, FitsSigned};
ghost use Rattle.std.specs.Int.{w32, w64};
ghost use Rattle.std.specs.Option.{option_map, option_map_or};
ghost use Rattle.atom_core.specs.Fits.{Fits};
ghost use Rattle.atom_core.specs.Spelling.{atom_of};
ghost use Rattle.patch_control.specs.declared.value.Value.TheVariants as number;
ghost use Rattle.patch_control.specs.Written.{get_object, set_object};
ghost use Rattle.session_play.specs.Patch.{message_of};
ghost use Rattle.urid_map.specs.Numbers.{number_of};

use atom_forge::Forge;
use lv_base::{Fixed, NoMemory, Text};
use patch_control::{Value, write_get, write_set};
use session_script::Deed;
use std::alloc::Global;
use step_record::Parcel;
use urid_map::Urids;

/// The most bytes of a message: a patch:Set has an object of 16 bytes and two properties of 24.
pub const MOST_BYTES: u32 = 64;

/// Writes the messages that actions send, one after the other. After `new` no call takes memory.
#[derive(Drop)]
pub struct MessageWriter {
    forge: Forge,
    ghost roomy: { 64 ≤ forge.room },
}

impl MessageWriter {
    /// A writer with room for one message.
    pub fn new(alloc: Global) -> Result<Self, NoMemory> {
        let forge = Forge::with_room(alloc, MOST_BYTES)?;
        Ok(MessageWriter { forge })
    }

    /// The message that an action sends, a patch:Set or a patch:Get: its whole atom, header and body. It is `None` exactly for actions that
    /// send none. A property without a number is written with the next one, which no URI has yet. A message may stand in a sequence.
    pub fn message_of(&mut self, urids: &Urids, deed: &Deed) -> Option<Parcel>
        ensures message { result ≡ option_map atom_of (message_of urids.now deed.now) }
        ensures fits { IfSome (message_of urids.now deed.now) (Fits 15) }
    {
        let forge = &mut self.forge;
        match deed {
            Deed::PatchFixed { property, value } => {
                set(forge, number(urids, property), &fixed(value))
            }
            Deed::PatchInt { property, value } => {
                set(forge, number(urids, property), &int(value))
            }
            Deed::PatchGet { property } => get(forge, asked(urids, property)),
            _ => None,
        }
    }
}

/// A number in parts of 2^-24, as a value.
fn fixed(value: &Fixed) -> Value
    ensures value { result ≡ number.Fixed value.now }
    ensures fits { FitsSigned w64 value.now.0 }
{
    Value::Fixed(Fixed(value.0))
}

/// A whole number, as a value.
fn int(value: &i32) -> Value
    ensures value { result ≡ number.Int value.now }
    ensures fits { FitsSigned w32 value.now }
{
    Value::Int(*value)
}

/// The number of a property, which may be the next one.
fn number(urids: &Urids, property: &Text) -> u32
    ensures { result ≡ number_of urids.now property.now }
{
    urids.number(property).unwrap_or(urids.held() + 1)
}

/// The number of the property that is asked for, 0 for all.
fn asked(urids: &Urids, property: &Option<Text>) -> u32
    ensures { result ≡ option_map_or (number_of urids.now) property.now 0 }
{
    match property {
        Some(property) => number(urids, property),
        None => 0,
    }
}

/// A patch:Set, alone.
fn set(forge: &mut Forge, property: u32, value: &Value) -> Option<Parcel>
    requires { 64 ≤ forge.old.room }
    ensures message { result ≡ Some (atom_of (set_object property value.now)) }
    ensures room { forge.new.room ≡ forge.old.room }
{
    forge.clear();
    let _ = write_set(forge, property, value);
    Parcel::new(forge.done())
}

/// A patch:Get of a property, or of all where that is 0, alone.
fn get(forge: &mut Forge, property: u32) -> Option<Parcel>
    requires { 64 ≤ forge.old.room }
    ensures message { result ≡ Some (atom_of (get_object property)) }
    ensures room { forge.new.room ≡ forge.old.room }
{
    forge.clear();
    let _ = write_get(forge, property);
    Parcel::new(forge.done())
}
