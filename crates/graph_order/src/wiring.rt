ghost use Rattle.std.specs.Prelude.{◌≡◌};
ghost use Rattle.graph_order.specs.Wiring.{feeds};

use session_script::CableLine;

/// Whether an instance feeds another within a block: by a cable without delay.
#[tactic(auto, unfolding(crate::specs::Wiring::feeds_some))]
pub(crate) fn feeds(cables: &[CableLine], source: u32, target: u32) -> bool
    ensures { result ≡ feeds cables.now source target }
{
    cables.iter().any(|cable| !cable.delayed && cable.source == source && cable.target == target)
}
