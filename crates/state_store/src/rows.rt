ghost use Rattle.std.specs.Prelude.{◌≡◌};

use crate::Prop;
use std::marker::Model;

/// The properties that are left to go through, in order of their keys. `Props::rows` makes it. Contracts see the list of them.
#[derive(Drop)]
pub struct Rows<'a> {
    left: &'a [(u32, Prop)],
}

impl<'a> Model for Rows<'a> {
    ghost use Rattle.std.specs.Prelude.{List, ℕ};
    ghost use Rattle.state_store.specs.declared.prop.Prop.{Prop};

    ghost Value = { List (ℕ × Prop) };

    ghost view = { λ rows. rows.left.now };
}

impl<'a> Rows<'a> {
    pub(crate) fn new(rows: &'a [(u32, Prop)]) -> Self
        ensures { result ≡ rows.now }
    {
        Rows { left: rows }
    }
}

impl<'a> Iterator for Rows<'a> {
    ghost use Rattle.std.specs.Iterator.{YieldsFirstBy, item_count};

    type Item = (u32, &'a Prop);

    ghost next_gives = { YieldsFirstBy (λ row. (row.0, row.1.now)) (λ left. left) };

    ghost remaining = { item_count (λ left. left) };

    fn next(&mut self) -> Option<(u32, &'a Prop)> {
        let (first, left) = self.left.split_first()?;
        self.left = left;
        Some((first.0, &first.1))
    }
}
