//! The top call of lv2fx: what a command does with files and a sink, and the answer that it gives.
#![tactic(auto)]

mod checking;
mod command;
mod files;
mod reading;
mod refusal;
mod rendering;
mod say;
mod stock;
mod top;

pub use checking::run_check;
pub use refusal::{DONE, Refusal, Target};
pub use rendering::run_render;
pub use stock::{Stock, StockFront};
pub use top::{host_main, without_words};
