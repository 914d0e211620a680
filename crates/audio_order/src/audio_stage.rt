use record_terms::Message;

/// What audio is about to do.
#[derive(Clone, Copy)]
pub enum AudioStage {
    /// It begins this block, or stops where there is no such block.
    Before { block: u32 },
    /// It looks at what control sent.
    Looking { block: u32 },
    /// It takes so many messages of control's.
    Taking { block: u32, more: u32 },
    /// It sends control the fronts that were asked for, from this instance on.
    Returning { block: u32, inst: usize },
    /// It runs the instances that are here, from this place of the plan on.
    Running { block: u32, place: usize },
    /// It is in the run of an instance.
    Within { turn: Turn, stage: RunStage },
    /// It has stopped.
    Stopped,
}

/// What an entry is about, and where audio is after it.
#[derive(Clone, Copy)]
pub struct AudioStep {
    pub about: Message,
    pub stage: AudioStage,
}

/// Where audio is in the run of an instance.
#[derive(Clone, Copy)]
pub enum RunStage {
    /// The run has begun, and makes so many attempts at most.
    Attempting { most: u32 },
    /// The run has ended, and tells so many notices at most.
    Noticing { most: u32 },
    /// So many responses are still to be delivered.
    Delivering { more: u32 },
    /// A response was taken, and so many are still to be delivered.
    Responding { more: u32 },
    /// A response is being delivered, and so many are to be after it.
    Responded { more: u32 },
    /// The responses are delivered, and the end of the run is told.
    Ending,
}

/// An instance whose turn it is in a block.
#[derive(Clone, Copy)]
pub struct Turn {
    pub block: u32,
    pub inst: u32,
    /// The place in the plan that follows its own.
    pub next: usize,
}
