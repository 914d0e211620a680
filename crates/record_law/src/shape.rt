use lv_base::Items;

/// What the rules of a record need to know of a session.
#[derive(Drop)]
pub struct Shape {
    /// Blocks of the whole run.
    pub blocks: u32,
    /// Messages that a ring holds.
    pub cells: u32,
    /// Workers, counted from 1.
    pub workers: u32,
    /// The instances in the order in which audio runs them.
    pub plan: Items<u32>,
    /// The instances, counted from 0.
    pub insts: Items<ShapeInst>,
    /// The actions, counted from 0, in the order in which control does them.
    pub actions: Items<ShapeAction>,
}

/// An instance of a plug-in.
#[derive(Clone, Copy)]
pub struct ShapeInst {
    /// The worker that it belongs to.
    pub worker: u32,
    /// It declares that it schedules work.
    pub works: bool,
    /// It has a port on which it answers patch messages.
    pub replies: bool,
}

/// What control does to an instance once a block is reached.
#[derive(Clone, Copy)]
pub struct ShapeAction {
    pub block: u32,
    pub kind: ActionKind,
    pub inst: u32,
}

#[derive(Clone, Copy)]
pub enum ActionKind {
    /// Sets a control input.
    Set,
    /// Sends a patch message.
    Patch,
    /// Saves the state.
    Save,
    /// Restores a state while audio goes on.
    RestoreSafe,
    /// Restores a state while control has both parts of the instance.
    Restore,
}

/// A rule that a record breaks, in the order in which they are tried at a line.
#[derive(Clone, Copy, Debug, PartialEq, Eq)]
pub enum Broken {
    /// The line has no form, or names an actor, a ring or an instance that isn't there.
    Syntax,
    /// The actor may not do this next.
    Order,
    /// A take without a message that was sent before it.
    Ring,
    /// A ring was found full that had room.
    Full,
    /// A send on a ring without room.
    Room,
    /// A look, or control's sight of the progress, showed too little; or the one before it too much.
    Look,
    /// The actor doesn't own a part that it calls or sends.
    Holder,
    /// A call overlaps another against the threading classes.
    Class,
    /// The code does something else here.
    Value,
    /// The record ends although an actor has more to do.
    End,
}
