//! A volume of two volumes.
ghost use Rattle.std.specs.Prelude.{◌≡◌};
ghost use Rattle.volumes.specs.Pages.{pages_in, inside, written};
ghost use Rattle.volumes.specs.Volumes.{joined_words, half_of, written_behind};
ghost use Rattle.volumes.specs.Joins.{joined_whole};

use crate::{MAX_PAGES, Volume};

/// The pages of the first volume and then those of the second, cut at `MAX_PAGES`.
#[derive(PartialEq, Eq, Debug, Drop)]
pub struct Joined<A, B> {
    pub first: A,
    pub second: B,
}

/// Which of two joined volumes has a page, and which of its pages that is.
#[derive(Clone, Copy)]
enum Half {
    First(usize),
    Second(usize),
}

impl<A: Volume, B: Volume> Joined<A, B> {
    /// Where a page is, if there is one before the cut.
    fn half_of(&self, page: usize) -> Option<Half>
        ensures { result ≡ half_of (pages_in (A.Volume.words self.now.first)) page }
    {
        match page.checked_sub(self.first.pages()) {
            None => Some(Half::First(page)),
            Some(at) => (page < MAX_PAGES).then_some(Half::Second(at)),
        }
    }
}

impl<A: Volume, B: Volume> Volume for Joined<A, B> {
    ghost words = { joined_words A.Volume B.Volume };

    ghost whole = { λ x. joined_whole _ _ (A.Volume.whole x.first) (B.Volume.whole x.second) };

    fn pages(&self) -> usize {
        (self.first.pages() + self.second.pages()).min(MAX_PAGES)
    }

    fn read(&self, page: usize, word: usize) -> Option<u32> {
        match self.half_of(page)? {
            Half::First(at) => self.first.read(at, word),
            Half::Second(at) => self.second.read(at, word),
        }
    }

    /// Writes as every volume does, to one of the two, and leaves the pages past the cut as they were.
    fn write(&mut self, page: usize, word: usize, value: u32) -> bool
        ensures value { result ≡ inside (joined_words A.Volume B.Volume self.old) page word }
        ensures words { joined_words A.Volume B.Volume self.new ≡ written (joined_words A.Volume B.Volume self.old) page word value }
        ensures pages { pages_in (joined_words A.Volume B.Volume self.new) ≡ pages_in (joined_words A.Volume B.Volume self.old) }
        ensures first { A.Volume.words self.new.first ≡ written (A.Volume.words self.old.first) page word value }
        ensures second { B.Volume.words self.new.second ≡ written_behind (pages_in (A.Volume.words self.old.first)) (B.Volume.words self.old.second) page word value }
    {
        match self.half_of(page) {
            Some(Half::First(at)) => self.first.write(at, word, value),
            Some(Half::Second(at)) => self.second.write(at, word, value),
            None => false,
        }
    }
}
