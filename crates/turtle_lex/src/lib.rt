//! The tokens of a Turtle 1.1 document, one after another.
#![tactic(auto)]

mod characters;
mod class;
mod enclosed;
mod enclosure;
mod escape;
mod fault;
mod gap;
mod groups;
mod lexer;
mod local;
mod name;
mod number;
mod plain;
mod run;
mod start;
mod stop;
mod tag;
mod word;

pub use fault::LexFault;
pub use lexer::{Lexer, next};
pub use turtle_grammar::{Token, TokenKind};
