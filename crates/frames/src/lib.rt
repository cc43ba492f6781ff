//! Call frames: the words by which a process asks the store for one of its eleven calls.
#![tactic(auto)]

pub mod call;
mod decoder;
mod encoder;
pub mod fault;
mod operation;
mod reader;
mod table;
pub mod theorems;
mod word;

pub use decoder::decode;
pub use encoder::encode;
