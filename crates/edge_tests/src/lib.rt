//! Tests at the edges, in a crate of their own: a crate with tests is proved twice.
#![tactic(auto)]

#[cfg(test)]
mod fault_tests;
#[cfg(test)]
mod frame_tests;
#[cfg(test)]
mod label_tests;
#[cfg(test)]
mod listing_tests;
#[cfg(test)]
mod table_tests;
#[cfg(test)]
mod volume_tests;
