ghost use Rattle.std.specs.Prelude.{◌≡◌};
ghost use Rattle.graph_order.specs.declared.fault.GraphFault.TheVariants as faults;

use lv_base::{Items, NoMemory};

/// Why a session has no plan: the first line that breaks a rule, of the values, the cables, the channels and the actions in this
/// order, with the first rule that it breaks; then a cycle. The first five have the number of the line.
#[derive(Drop)]
pub enum GraphFault {
    /// An instance has no port with a symbol that the line names.
    NoPort(u32),
    /// A value is set at an output, an input is heard, or a cable doesn't lead from an output to an input.
    Direction(u32),
    /// A value is set at no control port, what is heard is neither audio nor CV, or the ends of a cable aren't of one kind: audio, CV
    /// or atom.
    Kind(u32),
    /// A message goes to an instance without a port for it.
    NoPatch(u32),
    /// The state is meant of an instance that has none.
    NoState(u32),
    /// Cables without delay lead in a circle: a shortest cycle through the least instance that is on one, and of these the least
    /// list. It begins with that instance, and each feeds the next.
    Cycle(Items<u32>),
    NoMemory,
}

impl From<NoMemory> for GraphFault {
    ghost from_gives = { λ _ fault. fault ≡ faults.NoMemory };

    fn from(_: NoMemory) -> Self {
        GraphFault::NoMemory
    }
}
