ghost use Rattle.std.specs.Prelude.{◌≡◌, ◌==◌, [], ◌∷◌, find, IfSome, IfNone};
ghost use Rattle.std.specs.Option.{option_map};
ghost use Rattle.session_play.specs.Patch.{Property as Seen, properties_of};
ghost use Rattle.object_properties.specs.Properties.{seen, properties_in};

use crate::place::{after, front, padded, u32_at};
use crate::property::Property;
use std::marker::Model;

/// The properties of an object, in order. Contracts see the list of those that are left.
#[derive(Drop)]
pub struct Properties<'a> {
    rest: &'a [u8],
}

impl<'a> Model for Properties<'a> {
    ghost use Rattle.std.specs.Prelude.{List};
    ghost use Rattle.session_play.specs.Patch.{Property};
    ghost use Rattle.object_properties.specs.Properties.{properties_in};

    ghost Value = { List Property };

    ghost view = { λ properties. properties_in properties.rest.now };
}

impl<'a> Properties<'a> {
    /// Those of an object with this body: they stand after its id and its type.
    pub fn of(body: &'a [u8]) -> Self
        ensures { result ≡ properties_of body.now }
    {
        Properties {
            rest: after(body, 8),
        }
    }

    /// The first with this key.
    pub fn with_key(mut self, key: u32) -> Option<Property<'a>>
        ensures { option_map seen result ≡ find (λ (it : Seen). it.key == key) self.entry }
    {
        while let Some(property) = self.next() {
            if property.key == key {
                return Some(property);
            }
        }
        None
    }
}

/// The first of the properties that stand here, and the bytes of the others.
fn cut(bytes: &[u8]) -> Option<(Property<'_>, &[u8])>
    ensures none { IfNone result (properties_in bytes.now ≡ []) }
    ensures some { IfSome result (λ x. properties_in bytes.now ≡ seen x.0 ∷ properties_in x.1.now) }
{
    if bytes.len() < 16 {
        return None;
    }
    let size = u32_at(bytes, 8) as usize;
    let atom = after(bytes, 16);
    let property = Property {
        key: u32_at(bytes, 0),
        kind: u32_at(bytes, 12),
        body: front(atom, size),
    };
    Some((property, after(atom, padded(size))))
}

impl<'a> Iterator for Properties<'a> {
    ghost use Rattle.std.specs.Iterator.{YieldsFirstBy, item_count};
    ghost use Rattle.object_properties.specs.Properties.{seen};

    type Item = Property<'a>;

    ghost next_gives = { YieldsFirstBy seen (λ left. left) };

    ghost remaining = { item_count (λ left. left) };

    fn next(&mut self) -> Option<Property<'a>> {
        let (property, rest) = cut(self.rest)?;
        self.rest = rest;
        Some(property)
    }
}
