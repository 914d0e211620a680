use instance_class::{BackOf, FrontOf, Made};
use plug_api::Codes;

/// Where an instance stands.
#[derive(Drop)]
pub enum Place<C: Codes> {
    /// It isn't made, it has ended, or a call on it is being made.
    Away,
    /// It is made, and not active.
    Inactive(Made<C>),
    /// It is active.
    Active(FrontOf<C>, BackOf<C>),
}
