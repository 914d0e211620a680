ghost use Rattle.std.specs.Prelude.{◌≡◌, ◌==◌, [], length, if◌then◌else◌};
ghost use Rattle.stock_state.specs.Levels.{heard, level_in, saved, stored};

use lv_base::{Fixed, Sample, to_sample};
use state_store::{BAD_TYPE, NO_PROPERTY, Props, Shelf};

/// The number of the type Fixed.
const FIXED: u32 = 14;

/// `LV2_STATE_IS_POD` and `LV2_STATE_IS_PORTABLE`.
const PLAIN: u32 = 3;

/// The status of a call that does nothing.
pub const UNKNOWN: u8 = 1;

/// What is heard of a level with another one added.
pub(crate) fn heard(level: Fixed, more: Fixed) -> Sample
    ensures { result ≡ heard level more }
{
    to_sample(Fixed(level.0.saturating_add(more.0)))
}

/// The level that eight bytes tell.
pub fn level_in(body: [u8; 8]) -> Fixed
    ensures { result ≡ level_in body }
{
    Fixed(i64::from_le_bytes(body))
}

/// Stores a level on an empty shelf, under its key.
pub fn save(level: Fixed, key: u32, shelf: &mut Shelf) -> u8
    requires { shelf.old.rows ≡ [] }
    ensures status { result ≡ (saved key level shelf.old.mapped).0 }
    ensures shelf { shelf.new ≡ record shelf.old { rows = (saved key level shelf.old.mapped).1 } }
{
    shelf.store(key, FIXED, PLAIN, &level.0.to_le_bytes())
}

/// The body of the level that is stored under a key, or the status of that it isn't there.
pub fn stored(from: &Props, key: u32) -> Result<[u8; 8], u8>
    ensures { result ≡ stored from.now key }
{
    match from.retrieve(key) {
        Some(prop) if prop.kind == FIXED => eight_of(prop.bytes.as_slice()),
        Some(_) => Err(BAD_TYPE),
        None => Err(NO_PROPERTY),
    }
}

// A body of eight bytes.
fn eight_of(body: &[u8]) -> Result<[u8; 8], u8>
    ensures { result ≡ (if length body.now == 8 then Ok body.now else Err BAD_TYPE) }
{
    match <[u8; 8]>::try_from(body) {
        Ok(body) => Ok(body),
        Err(_) => Err(BAD_TYPE),
    }
}
