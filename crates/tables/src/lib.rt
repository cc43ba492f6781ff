//! The memory of a store as plain tables, allocated once.
#![tactic(auto)]

mod body;
mod cell;
mod known;
mod known_table;
mod links;
mod nibble;
mod object;
mod sixteen;
mod stack;
mod table;

pub use body::{Body, Directory};
pub use cell::Cell;
pub use known::Known;
pub use known_table::KnownTable;
pub use links::Links;
pub use nibble::Nibble;
pub use sixteen::Sixteen;
pub use stack::Stack;
pub use table::Table;
