//! Volumes: a fixed number of pages of words, read and written word by word.
#![tactic(auto)]

mod joined;
mod plain;
mod volume;

pub use joined::Joined;
pub use plain::Plain;
pub use volume::Volume;

/// How many words a page has.
pub const PAGE_WORDS: usize = 16;

/// A volume has at most so many pages.
pub const MAX_PAGES: usize = 65_536;
