use record_terms::Message;

/// Where a worker is in the work on a job.
#[derive(Clone, Copy)]
pub enum WorkStage {
    /// The job was taken.
    Taken,
    /// The work has begun, and makes so many attempts at most.
    Attempting { most: u32 },
}

/// What comes after the work on a job.
#[derive(Clone, Copy)]
pub enum AfterWork {
    /// The worker serves on.
    Serve,
    /// The next job that this action's restore of the same instance scheduled.
    Restored { action: u32 },
}

/// Where a worker is in a thread-safe restore.
#[derive(Clone, Copy)]
pub enum RestoreStage {
    /// The restore is asked for.
    Asked,
    /// It has begun, and makes so many attempts at most.
    Trying { most: u32 },
    /// It has ended, and the jobs that it scheduled are taken.
    Ended,
}

/// What a worker is about to do.
#[derive(Clone, Copy)]
pub enum WorkerStage {
    /// It takes what control asks or a job, or stops.
    Serving,
    /// It works on a job of an instance.
    Working {
        inst: u32,
        work: WorkStage,
        after: AfterWork,
    },
    /// It saves an instance for an action.
    SaveAsked {
        action: u32,
        inst: u32,
    },
    /// It ends that.
    Saving {
        action: u32,
        inst: u32,
    },
    /// It restores an instance for an action.
    Restoring {
        action: u32,
        inst: u32,
        restore: RestoreStage,
    },
    /// It sends control this.
    Answering(Message),
    /// It has stopped.
    Stopped,
}

/// What an entry is about, and where the worker is after it.
#[derive(Clone, Copy)]
pub struct WorkerStep {
    pub about: Message,
    pub stage: WorkerStage,
}

/// The jobs that restores of an instance sent to their own worker, and that it took.
#[derive(Clone, Copy)]
pub struct LocalCount {
    pub sent: u64,
    pub taken: u64,
}
