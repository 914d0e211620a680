ghost use Rattle.std.specs.Prelude.{◌≡◌, ℕ, IfOk};
ghost use Rattle.std.specs.Option.{option_copied};
ghost use Rattle.state_store.specs.Properties.{held, AreRising};

use crate::{Prop, Rows};
use lv_base::NoMemory;
use std::alloc::Global;
use std::marker::Model;

/// The properties of a state: a map from the number of each key to its value. Contracts see the list of its rows, in order of the
/// keys, each of which stands there once.
#[derive(Drop)]
pub struct Props {
    rows: Vec<(u32, Prop)>,
}

impl Model for Props {
    ghost use Rattle.std.specs.Prelude.{List, ℕ};
    ghost use Rattle.state_store.specs.declared.prop.Prop.{Prop};
    ghost use Rattle.state_store.specs.Properties.{AreRising};

    ghost Value = { List (ℕ × Prop) };

    ghost view = { λ props. props.rows.items };

    ghost invariant = { λ props. AreRising props.rows.items };
}

fn copy_all(alloc: Global, rows: &[(u32, Prop)]) -> Result<Vec<(u32, Prop)>, NoMemory>
    ensures { IfOk result (λ copies. copies.items ≡ rows.now) }
{
    let mut copies = Vec::with_capacity(alloc, rows.len())?;
    for row in rows {
        let copy = row.1.copy(alloc)?;
        copies.push((row.0, copy))?;
    }
    Ok(copies)
}

impl Props {
    pub(crate) fn from_rows(rows: Vec<(u32, Prop)>) -> Self
        requires { AreRising rows.items }
        ensures { result ≡ rows.items }
    {
        Props { rows }
    }

    /// The value with this key, `None` exactly where there is none. It takes no memory.
    pub fn retrieve(&self, key: u32) -> Option<&Prop>
        ensures { option_copied result ≡ held self.now key }
    {
        match self.rows.as_slice().binary_search_by_key(&key, |row| row.0) {
            Ok(place) => Some(&self.rows[place].1),
            Err(_) => None,
        }
    }

    /// Each key with its value, in order of the keys.
    pub fn rows(&self) -> Rows<'_>
        ensures value { result ≡ self.now }
        ensures rising { AreRising self.now }
    {
        Rows::new(self.rows.as_slice())
    }

    /// The same properties.
    pub fn copy(&self) -> Result<Props, NoMemory>
        ensures { IfOk result (λ copy. copy ≡ self.now) }
    {
        let rows = copy_all(*self.rows.allocator(), self.rows.as_slice())?;
        Ok(Props::from_rows(rows))
    }

    /// A law, with nothing to find out: properties are a map, so two that have the same under each key are the same.
    pub fn same_where_alike(&self, other: &Props)
        ensures { ((key : ℕ) → held self.now key ≡ held other.now key) → self.now ≡ other.now }
    {
        self.rows.len();
        other.rows.len();
    }
}
