//! Listings: calls as lines of text, a digit for the process and eight hexadecimal digits for each word of its frame.
#![tactic(auto)]

pub mod line;
mod parser;
pub mod splitter;

pub use parser::parse_line;
