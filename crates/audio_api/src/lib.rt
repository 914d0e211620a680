//! What a host asks of a plug-in's code: to make a front, and to run it over lent ports.
#![tactic(auto)]

mod block;
mod codes;
mod front;
mod ins;
mod outs;
mod ports;
mod stock;

pub use block::Block;
pub use codes::Codes;
pub use front::Front;
pub use ins::Ins;
pub use outs::Outs;
pub use ports::Ports;
pub use stock::StockPorts;
