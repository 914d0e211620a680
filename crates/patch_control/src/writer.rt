ghost use Rattle.std.specs.Prelude.{◌≡◌, ◌≤◌, length, MatchResult};
ghost use Rattle.atom_core.specs.Value.{keyed};
ghost use Rattle.atom_forge.specs.declared.level.Holds.TheVariants.{Properties};
ghost use Rattle.atom_forge.specs.Forged.{TakesAtom, TakesLead, IsForged, up_to, PutsAtom};
ghost use Rattle.patch_control.specs.Written.{value_of, urid_value, asked_for, rows_in, body_with, get_object, set_object, put_object};
ghost use Rattle.patch_control.specs.Writing.{TriesPart, TriesParts, TriesObject};

use crate::value::Value;
use crate::words::{BODY, GET, PROPERTY, PUT, SET, VALUE};
use atom_forge::{Forge, Mark, NoRoom};

/// Writes the atom of a value.
fn put_value(f: &mut Forge, value: &Value) -> Result<(), NoRoom>
    requires { TakesAtom f.old }
    ensures { PutsAtom f.old (value_of value.now) result f.new }
{
    match value {
        Value::Int(number) => f.int(*number),
        Value::Fixed(number) => f.fixed(*number),
    }
}

/// Writes a property whose atom is a URID. Without room it may leave a part of it.
fn put_urid(f: &mut Forge, key: u32, number: u32) -> Result<(), NoRoom>
    requires lead { TakesLead f.old Properties }
    requires deep { length f.old.levels ≤ 16 }
    ensures { TriesPart f.old (keyed key 0) (urid_value number) result f.new }
{
    f.key(key)?;
    f.urid(number)
}

/// Writes a property. Without room it may leave a part of it.
fn put_property(f: &mut Forge, key: u32, value: &Value) -> Result<(), NoRoom>
    requires lead { TakesLead f.old Properties }
    requires deep { length f.old.levels ≤ 16 }
    ensures { TriesPart f.old (keyed key 0) (value_of value.now) result f.new }
{
    f.key(key)?;
    put_value(f, value)
}

/// Writes some properties. Without room it may leave a part of them.
fn put_rows(f: &mut Forge, rows: &[(u32, Value)]) -> Result<(), NoRoom>
    requires lead { TakesLead f.old Properties }
    requires deep { length f.old.levels ≤ 16 }
    ensures { TriesParts f.old (rows_in rows.now) result f.new }
{
    for (key, value) in rows {
        put_property(f, *key, value)?;
    }
    Ok(())
}

/// Writes the property that is asked for, if there is one. Without room it may leave a part of it.
fn put_asked(f: &mut Forge, property: u32) -> Result<(), NoRoom>
    requires lead { TakesLead f.old Properties }
    requires deep { length f.old.levels ≤ 16 }
    ensures { TriesParts f.old (asked_for property) result f.new }
{
    if property == 0 {
        return Ok(());
    }
    put_urid(f, PROPERTY, property)
}

/// Writes the body of a message. Without room it may leave a part of it.
fn put_body(f: &mut Forge, rows: &[(u32, Value)]) -> Result<(), NoRoom>
    requires takes { TakesAtom f.old }
    requires deep { length f.old.levels ≤ 15 }
    ensures { TriesObject f.old (body_with rows.now) result f.new }
{
    f.object(0, 0)?;
    put_rows(f, rows)?;
    f.pop();
    Ok(())
}

fn try_get(f: &mut Forge, property: u32) -> Result<(), NoRoom>
    requires takes { TakesAtom f.old }
    requires deep { length f.old.levels ≤ 14 }
    ensures { TriesObject f.old (get_object property) result f.new }
{
    f.object(0, GET)?;
    put_asked(f, property)?;
    f.pop();
    Ok(())
}

fn try_set(f: &mut Forge, property: u32, value: &Value) -> Result<(), NoRoom>
    requires takes { TakesAtom f.old }
    requires deep { length f.old.levels ≤ 14 }
    ensures { TriesObject f.old (set_object property value.now) result f.new }
{
    f.object(0, SET)?;
    put_urid(f, PROPERTY, property)?;
    put_property(f, VALUE, value)?;
    f.pop();
    Ok(())
}

fn try_put(f: &mut Forge, rows: &[(u32, Value)]) -> Result<(), NoRoom>
    requires takes { TakesAtom f.old }
    requires deep { length f.old.levels ≤ 14 }
    ensures { TriesObject f.old (put_object rows.now) result f.new }
{
    f.object(0, PUT)?;
    f.key(BODY)?;
    put_body(f, rows)?;
    f.pop();
    Ok(())
}

/// Takes back what was tried, where it had no room.
fn or_back(f: &mut Forge, mark: Mark, tried: Result<(), NoRoom>) -> Result<(), NoRoom>
    requires { MatchResult tried (λ _. Unit {0}) (λ _. IsForged (up_to mark f.old)) }
    ensures same { result ≡ tried }
    ensures forge { MatchResult tried (λ _. f.new ≡ f.old) (λ _. f.new ≡ up_to mark f.old) }
{
    if tried.is_err() {
        f.back(mark);
    }
    tried
}

/// Writes a patch:Get of a property, or of all where that is 0. At most 14 containers may be open.
///
/// # Errors
/// Where the message has no room; what was finished stays as it was.
pub fn write_get(f: &mut Forge, property: u32) -> Result<(), NoRoom>
    requires takes { TakesAtom f.old }
    requires deep { length f.old.levels ≤ 14 }
    ensures { PutsAtom f.old (get_object property) result f.new }
{
    let mark = f.mark();
    let tried = try_get(f, property);
    or_back(f, mark, tried)
}

/// Writes a patch:Set of a property to a value. At most 14 containers may be open.
///
/// # Errors
/// Where the message has no room; what was finished stays as it was.
pub fn write_set(f: &mut Forge, property: u32, value: &Value) -> Result<(), NoRoom>
    requires takes { TakesAtom f.old }
    requires deep { length f.old.levels ≤ 14 }
    ensures { PutsAtom f.old (set_object property value.now) result f.new }
{
    let mark = f.mark();
    let tried = try_set(f, property, value);
    or_back(f, mark, tried)
}

/// Writes a patch:Put of some properties, each with its key. At most 14 containers may be open.
///
/// # Errors
/// Where the message has no room; what was finished stays as it was.
pub fn write_put(f: &mut Forge, rows: &[(u32, Value)]) -> Result<(), NoRoom>
    requires takes { TakesAtom f.old }
    requires deep { length f.old.levels ≤ 14 }
    ensures { PutsAtom f.old (put_object rows.now) result f.new }
{
    let mark = f.mark();
    let tried = try_put(f, rows);
    or_back(f, mark, tried)
}
