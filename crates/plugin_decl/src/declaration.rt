ghost use Rattle.std.specs.Prelude.{◌≡◌};
ghost use Rattle.plugin_decl.specs.declared.declaration.DeclFault.TheVariants.{NoMemory};

use lv_base::{Fixed, Items, NoMemory, Text};
use triple_store::Term;

/// What is declared of a plug-in.
#[derive(Drop)]
pub struct Decl {
    pub uri: Text,
    /// `doap:name`, empty without one.
    pub name: Text,
    /// `lv2:minorVersion` and `lv2:microVersion`, 0 where there is no such number.
    pub minor: u32,
    pub micro: u32,
    /// In order of index: the port at place i has the index i.
    pub ports: Items<Port>,
    /// It has `work:interface`.
    pub worker: bool,
    /// It has `state:interface`.
    pub state: bool,
    /// It has both, and names `state:threadSafeRestore` among its features.
    pub safe: bool,
    /// The IRIs of `patch:readable`, in order of the store.
    pub reads: Items<Text>,
    /// Those of `patch:writable`.
    pub writes: Items<Text>,
}

/// The version of a plug-in: `lv2:minorVersion` and `lv2:microVersion`, 0 where there is no such number.
#[derive(Clone, Copy)]
pub struct Version {
    pub minor: u32,
    pub micro: u32,
}

/// What is declared of a port.
#[derive(Drop)]
pub struct Port {
    /// From 0 to 255.
    pub index: u32,
    pub symbol: Text,
    pub name: Text,
    /// An input, else an output.
    pub input: bool,
    pub kind: PortKind,
    /// It is `lv2:connectionOptional`.
    pub optional: bool,
    /// The value before any is set: `lv2:default`, else the minimum, else 0. It isn't brought into the range.
    pub first: Fixed,
    /// `lv2:minimum` and `lv2:maximum`. These three are read on every port, and judged on control ports alone: on others the first
    /// object counts, and one that can't be read is as none.
    pub least: Option<Fixed>,
    pub most: Option<Fixed>,
    /// The bytes of an atom port's buffer, a multiple of 8 from 4096 to 1048576. 0 for other ports.
    pub room: u32,
    /// It is designated `lv2:control`.
    pub control: bool,
    /// It supports `patch:Message`.
    pub patch: bool,
}

/// The class of a port: the first of the four that it has, in this order.
#[derive(Clone, Copy)]
pub enum PortKind {
    Audio,
    Cv,
    Control,
    Atom,
    /// It has none of these.
    Unsupported,
}

/// Why the triples declare no plug-in that can be run: the first broken rule, in this order. A rule goes through all ports before
/// the next one.
#[derive(Drop)]
pub enum DeclFault {
    /// The URI isn't an `lv2:Plugin`.
    NoPlugin,
    /// The port at this place, from 0 in order of the store, hasn't exactly one `lv2:index`, an integer from 0 to 255.
    BadIndex(usize),
    /// Two ports have this index.
    SameIndex(u32),
    /// No port has this index, which is below the number of ports.
    Gap(u32),
    /// The port of this index hasn't exactly one `lv2:symbol`, a name of letters, digits and `_` that begins with no digit.
    BadSymbol(u32),
    /// A port of a lower index has the symbol of this one.
    SameSymbol(u32),
    /// The port has no `lv2:name`.
    NoName(u32),
    /// It is neither an `lv2:InputPort` nor an `lv2:OutputPort`.
    NoDirection(u32),
    /// It is both.
    TwoDirections(u32),
    /// It has no supported class, and isn't `lv2:connectionOptional`.
    PortClass(u32),
    /// This required feature isn't supported.
    Feature(Term),
    /// This required option isn't supported.
    RequiredOption(Term),
    /// A control port's default, minimum or maximum stands more than once or is no number that fits, or its minimum is above its
    /// maximum; or an atom port's `rsz:minimumSize` stands more than once or isn't an integer from 0 to 1048576.
    BadValue(u32),
    NoMemory,
}

impl From<NoMemory> for DeclFault {
    ghost from_gives = { λ _ made. made ≡ NoMemory };

    fn from(_: NoMemory) -> Self {
        DeclFault::NoMemory
    }
}
