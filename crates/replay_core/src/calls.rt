ghost use Rattle.std.specs.Prelude.{◌≡◌};

use audio_api::Front;

/// Activates a front, which stays of its code.
pub(crate) fn activate<F: Front>(front: &mut F)
    ensures value { front.new ≡ F.activate_of front.old }
    ensures uri { F.uri_of front.new ≡ F.uri_of front.old }
{
    front.activate();
}

/// Deactivates a front, which stays of its code.
pub(crate) fn deactivate<F: Front>(front: &mut F)
    ensures value { front.new ≡ F.deactivate_of front.old }
    ensures uri { F.uri_of front.new ≡ F.uri_of front.old }
{
    front.deactivate();
}
