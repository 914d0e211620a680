//! The properties of LV2's state extension: what a plug-in stores, and the shelf that it stores them on.
#![tactic(auto)]

mod prop;
mod props;
mod rows;
mod shelf;
mod slots;
mod status;

pub use prop::Prop;
pub use props::Props;
pub use rows::Rows;
pub use shelf::Shelf;
pub use status::{
    BAD_FLAGS, BAD_TYPE, MOST_BYTES, MOST_PROPERTIES, NO_PROPERTY, NO_SPACE, SUCCESS,
};
