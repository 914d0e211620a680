//! The handover of a plain restore: whoever restores asks for the front of the instance, takes it, takes its back, restores both, and
//! gives both away. Each state has its own type, so that no part is restored before it is held, and none is held twice.

ghost use Rattle.std.specs.Prelude.{◌≡◌};

use std::marker::Model;

/// The front is asked for, and no part is held.
#[derive(Drop)]
pub struct Asked {
    _asked: (),
}

/// The front is held, and the back is asked for. Contracts see the front.
#[derive(Drop)]
pub struct FrontHeld<F> {
    front: F,
}

/// Both parts are held. Contracts see the front and the back.
#[derive(Drop)]
pub struct BothHeld<F, B> {
    front: F,
    back: B,
}

impl<F> Model for FrontHeld<F> {
    ghost Value = { F };

    ghost coded = { F.code };

    ghost view = { λ held. held.front };
}

impl<F, B> Model for BothHeld<F, B> {
    ghost use Rattle.std.specs.Coded.{coded×};

    ghost Value = { F × B };

    ghost coded = { coded× F.code B.code };

    ghost view = { λ held. (held.front, held.back) };
}

impl Asked {
    /// Asks for the front.
    pub fn new() -> Self {
        Asked { _asked: () }
    }

    /// The front has come.
    pub fn front<F>(self, front: F) -> FrontHeld<F>
        ensures { result ≡ front }
    {
        FrontHeld { front }
    }

    /// Gives up. There is nothing to give back.
    pub fn stop(self) {}
}

impl<F> FrontHeld<F> {
    /// The back has come.
    pub fn back<B>(self, back: B) -> BothHeld<F, B>
        ensures { result ≡ (self, back) }
    {
        let FrontHeld { front } = self;
        BothHeld { front, back }
    }

    /// Gives up, and gives the front back.
    pub fn stop(self) -> F
        ensures { result ≡ self }
    {
        let FrontHeld { front } = self;
        front
    }
}

impl<F, B> BothHeld<F, B> {
    /// Both parts, to be restored and given away.
    pub fn apart(self) -> (F, B)
        ensures { result ≡ self }
    {
        let BothHeld { front, back } = self;
        (front, back)
    }

    /// Gives up, and gives both parts back.
    pub fn stop(self) -> (F, B)
        ensures { result ≡ self }
    {
        self.apart()
    }
}
