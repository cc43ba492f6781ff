//! Labels: a security word and an integrity word, each under an order of its own.
#![tactic(auto)]

mod dominance;
mod edges;
mod label;
mod level_category;
mod part_order;
mod reversed;
mod single;

pub use dominance::Dominance;
pub use edges::level_edges;
pub use label::{Label, LabelOrder};
pub use level_category::LevelCategory;
pub use part_order::PartOrder;
pub use reversed::Reversed;
pub use single::Single;
