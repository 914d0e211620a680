use lv_base::{Fixed, Items, Text};

/// What a session script says: the instances of plug-ins, how they are set and wired, what is heard, and what is done to
/// them while they run.
#[derive(Drop)]
pub struct Session {
    /// Frames in a second.
    pub rate: u32,
    /// Frames of a block.
    pub block: u32,
    /// Blocks of the whole run.
    pub blocks: u32,
    /// Worker threads, numbered from 1.
    pub workers: u32,
    /// Messages that a ring holds.
    pub cells: u32,
    /// Entries that the step record has room for, where the script says so.
    pub reserve: Option<u64>,
    /// The paths of the bundles, without a `/` at the end.
    pub bundles: Items<Text>,
    /// The instances, numbered from 0 in order of their lines.
    pub insts: Items<Inst>,
    pub sets: Items<SetLine>,
    pub cables: Items<CableLine>,
    /// The channels, in order.
    pub outs: Items<OutLine>,
    /// What is done while the blocks are played, in order.
    pub actions: Items<Action>,
}

/// An instance of the plug-in `uri`, and the worker that its line names. Lines count from 1.
#[derive(Drop)]
pub struct Inst {
    pub name: Text,
    pub uri: Text,
    pub worker: Option<u32>,
    pub line: u32,
}

/// A value of a control input before the run.
#[derive(Drop)]
pub struct SetLine {
    pub inst: u32,
    pub symbol: Text,
    pub value: Fixed,
    pub line: u32,
}

/// A cable from an output of `source` to an input of `target`.
#[derive(Drop)]
pub struct CableLine {
    pub source: u32,
    pub output: Text,
    pub target: u32,
    pub input: Text,
    /// What goes in comes out a block later.
    pub delayed: bool,
    pub line: u32,
}

/// A channel: what the output `symbol` of an instance gives.
#[derive(Drop)]
pub struct OutLine {
    pub inst: u32,
    pub symbol: Text,
    pub line: u32,
}

/// What is done to an instance once a block is reached.
#[derive(Drop)]
pub struct Action {
    pub block: u32,
    pub inst: u32,
    pub deed: Deed,
    pub line: u32,
}

#[derive(Drop)]
pub enum Deed {
    /// Sets a control input.
    Set { symbol: Text, value: Fixed },
    /// Sends the instance a `patch:Set` of a property.
    PatchFixed { property: Text, value: Fixed },
    PatchInt { property: Text, value: i32 },
    /// Asks the instance for a property, or for all.
    PatchGet { property: Option<Text> },
    /// Saves the state of the instance.
    Save,
    /// Restores the state at `place`, counted from 0, of a file of states.
    Restore { path: Text, place: u32 },
}
