//! The rules of the store as definitions, and the laws of its histories.
#![tactic(auto)]

mod denial;
pub mod laws;

pub use denial::{Denial, StoreFault};
pub use frames::fault::Reason;
