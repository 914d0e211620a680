use record_terms::Message;
use step_law::Ring;

/// A call that control makes on each instance in turn.
#[derive(Clone, Copy)]
pub enum Round {
    Make,
    Activate,
    Deactivate,
    Cleanup,
}

/// Where control is in the restore of an instance of which it has both parts.
#[derive(Clone, Copy)]
pub enum PlainStage {
    /// It asks audio for the front.
    AskFront,
    /// It waits for the front.
    AwaitFront,
    /// It asks the worker for the back.
    AskBack,
    /// It takes the back.
    TakeBack,
    /// It restores.
    Begin,
    /// It gives the back to the worker.
    GiveBack,
    /// It gives the front to audio.
    GiveFront,
}

/// Where control is in an action.
#[derive(Clone, Copy)]
pub enum ActionStage {
    /// The block of the action may not be reached, or all actions are done.
    Due,
    /// It tells audio the action's value or message.
    Tell,
    /// It asks the worker of an instance.
    Ask { inst: u32, message: Message },
    /// It takes the answer of that worker.
    Hear { inst: u32 },
    /// It restores an instance of which it asks for both parts.
    Plain { inst: u32, plain: PlainStage },
}

/// Where control is once audio has stopped.
#[derive(Clone, Copy)]
pub enum ClosingStage {
    /// It tells the workers from this one on to stop, and then waits for all others.
    Telling { worker: u32 },
    /// It takes what is left in the rings to it, from this one on.
    Taking { ring: Ring },
}

/// Where control is in an action that it does once all others have stopped.
#[derive(Clone, Copy)]
pub enum FinishStage {
    /// The action isn't begun, or all are done.
    Next,
    /// It ends the save of an instance.
    Saving { inst: u32 },
    /// It ends the restore of an instance.
    Restoring { inst: u32 },
}

/// What control is about to do.
#[derive(Clone, Copy)]
pub enum ControlStage {
    /// It calls an instance and all that follow, or ends that call of the first of them.
    Calling {
        round: Round,
        inst: u32,
        begun: bool,
    },
    /// It is in an action.
    Acting {
        action: u32,
        stage: ActionStage,
    },
    /// It ends the restore of an instance for an action, and then gives both parts away.
    Restoring {
        action: u32,
        inst: u32,
    },
    /// It closes; the actions from this one on are unfinished.
    Closing {
        unfinished: u32,
        stage: ClosingStage,
    },
    /// It does the unfinished actions from this one on.
    Finishing {
        action: u32,
        stage: FinishStage,
    },
    /// It ends the record.
    Ending,
    /// The record has ended.
    Over,
}

/// What an entry is about, and where control is after it.
#[derive(Clone, Copy)]
pub struct ControlStep {
    pub about: Message,
    pub stage: ControlStage,
}
