//! What a session's files say: so far the triples of a bundle.
#![tactic(auto)]

mod bundle_files;
mod fault;
mod file_name;
mod named_files;

pub use bundle_files::{MOST_FILE_BYTES, bundle, one_answer, some_answer, stays_inside};
pub use fault::LoadFault;
