//! The objects of a store, and every step that changes them.
#![tactic(auto)]

mod create;
mod delete;
mod extent;
mod new;
mod objects;
mod quota;
mod read;
mod storage;
mod truncate;
mod volume_page;
mod write;

pub use objects::Objects;
pub use storage::Marks;
