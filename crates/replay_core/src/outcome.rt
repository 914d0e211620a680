use lv_base::Bytes;
use step_record::Record;

/// What a whole run gives.
#[derive(Debug, Drop)]
pub struct Outcome {
    /// What was done, in order.
    pub steps: Record,
    /// The sound: 16 bits a sample, little-endian, the channels of a frame side by side.
    pub pcm: Bytes,
    /// A text on the run for people.
    pub summary: Bytes,
}
