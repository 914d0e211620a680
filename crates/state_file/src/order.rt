ghost use Rattle.std.specs.Prelude.{◌≡◌, ◌++◌, ◌≤◌, fold, map, length, IfOk, OnOk};
ghost use Rattle.std.specs.List.{position_or_len};
ghost use Rattle.state_file.specs.Order.{uri_text, comes_before, placed, in_order};

use lv_base::NoMemory;
use state_store::Props;
use std::alloc::Global;
use urid_map::Urids;

/// The characters of the URI with a number, none where no URI has it.
pub(crate) fn uri_text(urids: &Urids, number: u32) -> &str
    ensures { result.now ≡ uri_text urids.now number }
{
    match urids.unmap(number) {
        Some(uri) => uri.as_str(),
        None => "",
    }
}

/// The keys in the byte order of their URIs.
pub(crate) fn in_order(alloc: Global, props: &Props, urids: &Urids) -> Result<Vec<u32>, NoMemory>
    ensures { IfOk result (λ keys. keys.items ≡ in_order urids.now (map (λ row. row.0) props.now)) }
{
    let mut keys = Vec::new(alloc);
    for (key, _) in props.rows() {
        place(&mut keys, key, urids)?;
    }
    Ok(keys)
}

/// Puts a key before the first whose URI comes after its own.
fn place(keys: &mut Vec<u32>, key: u32, urids: &Urids) -> Result<(), NoMemory>
    ensures { OnOk result (keys.new.items ≡ placed urids.now keys.old.items key) }
{
    let place = place_of(keys.as_slice(), key, urids);
    keys.insert(place, key)?;
    Ok(())
}

fn place_of(keys: &[u32], key: u32, urids: &Urids) -> usize
    ensures value { result ≡ position_or_len (comes_before urids.now key) keys.now }
    ensures within { result ≤ length keys.now }
{
    for (place, other) in keys.iter().enumerate() {
        if comes_before(urids, key, *other) {
            return place;
        }
    }
    keys.len()
}

fn comes_before(urids: &Urids, key: u32, other: u32) -> bool
    ensures { result ≡ comes_before urids.now key other }
{
    uri_text(urids, key) < uri_text(urids, other)
}
