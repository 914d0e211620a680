//! The stock codes: the plug-ins that come with the host, each with its declaration.
#![tactic(auto)]

mod back;
mod documents;
mod front;
mod making;
mod name;
mod stock;

pub use back::StockBack;
pub use front::StockFront;
pub use name::StockName;
pub use stock::Stock;
