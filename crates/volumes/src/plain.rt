//! A volume over words of its own.
ghost use Rattle.std.specs.Prelude.{◌≡◌, if◌then◌else◌, Some, None};
ghost use Rattle.volumes.specs.Pages.{pages_in, inside, word_index, written};
ghost use Rattle.volumes.specs.Volumes.{plain_words, unused_words};
ghost use Rattle.std.proofs.Common.{rules};

use crate::{MAX_PAGES, PAGE_WORDS, Volume};

/// A volume over words handed in. A last part page, and the pages past `MAX_PAGES`, stay unused and untouched.
#[derive(PartialEq, Eq, Debug, Drop)]
pub struct Plain {
    words: Vec<u32>,
}

impl Plain {
    /// A volume over these words.
    pub fn new(words: Vec<u32>) -> Plain
        ensures { result.words ≡ words }
    {
        Plain { words }
    }

    /// Hands back all words, the unused ones too.
    pub fn into_words(self) -> Vec<u32>
        ensures { result ≡ self.words }
    {
        let Plain { words } = self;
        words
    }

    /// The index of that word of that page, if there is one.
    fn index_of(&self, page: usize, word: usize) -> Option<usize>
        ensures { result ≡ (if inside (plain_words self.now) page word then Some (word_index page word) else None) }
    {
        if page < self.pages() && word < PAGE_WORDS {
            Some(page * PAGE_WORDS + word)
        } else {
            None
        }
    }
}

/// As `Plain::new`.
impl From<Vec<u32>> for Plain {
    ghost from_gives = { λ words volume. volume.words ≡ words };

    fn from(words: Vec<u32>) -> Plain {
        Plain::new(words)
    }
}

/// As `Plain::into_words`.
impl From<Plain> for Vec<u32> {
    ghost from_gives = { λ volume words. words ≡ volume.words };

    fn from(volume: Plain) -> Vec<u32> {
        volume.into_words()
    }
}

impl Volume for Plain {
    ghost words = { plain_words };

    ghost whole = { Prim.search rules };

    fn pages(&self) -> usize {
        (self.words.len() / PAGE_WORDS).min(MAX_PAGES)
    }

    #[tactic(auto, using(crate::proofs::Plains::found))]
    fn read(&self, page: usize, word: usize) -> Option<u32> {
        let index = self.index_of(page, word)?;
        Some(self.words[index])
    }

    /// Writes as every volume does, and leaves the unused words as they were.
    #[tactic(auto, using(crate::proofs::Plains::found))]
    fn write(&mut self, page: usize, word: usize, value: u32) -> bool
        ensures value { result ≡ inside (plain_words self.old) page word }
        ensures words { plain_words self.new ≡ written (plain_words self.old) page word value }
        ensures pages { pages_in (plain_words self.new) ≡ pages_in (plain_words self.old) }
        ensures unused { unused_words self.new ≡ unused_words self.old }
    {
        let Some(index) = self.index_of(page, word) else {
            return false;
        };
        self.words[index] = value;
        true
    }
}
