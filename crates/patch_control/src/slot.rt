ghost use Rattle.std.specs.Prelude.{◌≡◌, ◌||◌, true, false, None};
ghost use Rattle.std.specs.Option.{option_or};

/// What was found under one key: the first item that counts, if there is one, and whether the key stands once, or again.
#[derive(Clone, Copy)]
pub(crate) struct Slot<T> {
    pub item: Option<T>,
    pub stands: bool,
    pub again: bool,
}

impl<T: Copy> Slot<T> {
    pub fn empty() -> Self
        ensures { result ≡ record { item = None; stands = false; again = false } }
    {
        Slot {
            item: None,
            stands: false,
            again: false,
        }
    }

    /// The key stands once more, with an item if its atom counts.
    pub fn add(&mut self, item: Option<T>)
        ensures item { self.new.item ≡ option_or self.old.item item }
        ensures stands { self.new.stands ≡ true }
        ensures again { self.new.again ≡ (self.old.again || self.old.stands) }
    {
        self.again = self.again || self.stands;
        self.stands = true;
        self.item = self.item.or(item);
    }
}
