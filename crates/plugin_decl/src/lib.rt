//! What a bundle's triples declare of an LV2 plug-in: its ports, features and properties, or the first rule that they break.
#![tactic(auto)]

mod breaches;
mod checks;
mod declaration;
mod features;
mod first_two;
mod indexes;
mod message_ports;
mod naming;
mod objects;
mod options;
mod plugin;
mod port;
mod port_facts;
mod port_rules;
mod reader;
mod values;

pub use declaration::{Decl, DeclFault, Port, PortKind, Version};
pub use message_ports::{patch_port, reply_port};
pub use options::{Options, options_of};
pub use reader::{declare, one_answer, some_answer, version_of};
