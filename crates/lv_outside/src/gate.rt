/// A place in a running thread at which a gate may hold it.
#[derive(Clone, Copy)]
pub enum Point {
    /// Before the audio thread plays this block, from 0.
    BlockBefore(u32),
    /// After the audio thread has played this block.
    BlockAfter(u32),
    /// After a worker has taken a job: the instance, and the number of its job, from 0.
    JobTaken(u32, u64),
    /// After the job is worked and its end is recorded.
    JobWorked(u32, u64),
    /// Before the control thread does this action, from 0.
    ActionBefore(u32),
}

/// Called by the running threads at each `Point`, so that a test may choose their order. No promise depends on it.
pub trait Gate {
    fn pass(&self, point: Point);
}

/// A gate that holds nobody.
#[derive(Clone, Copy)]
pub struct OpenGate;

impl Gate for OpenGate {
    fn pass(&self, _: Point) {}
}
