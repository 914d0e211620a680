//! The step record: what the actors of a run did, in one order, and its text.
#![tactic(auto)]

mod count;
mod fault;
mod log;
mod marks;
mod parcel;
mod pen;
mod reader;
mod record;
mod text;
mod tickets;
mod words;

pub use count::Count;
pub use fault::RecordFault;
pub use log::Log;
pub use marks::Marks;
pub use parcel::Parcel;
pub use pen::Pen;
pub use reader::read;
pub use record::Record;
pub use step_law::{Actor, Call, Entry, Event, Kind, Ring};
pub use text::write;
pub use tickets::Tickets;
