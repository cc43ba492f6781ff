//! The page of a volume that serves a page of a segment.
ghost use Rattle.std.specs.Prelude.{◌≡◌, ℕ, ◌+◌, ◌*◌, ◌<◌, if◌then◌else◌};
ghost use Rattle.volumes.specs.Pages.{pages_in};
ghost use Rattle.forest.specs.Words.{word_over, page_written};
ghost use Rattle.objects.specs.VolumePages.{number_of, is_fresh};
ghost use Rattle.objects.specs.Writes.{told};

use crate::extent::Extent;
use tables::Nibble;
use volumes::{PAGE_WORDS, Volume};

/// The page of a volume that serves a page of a segment: it has done so, or it begins to, and then counts as zeros.
#[derive(Clone, Copy, PartialEq, Eq, Debug)]
pub(crate) enum VolumePage {
    Held(usize),
    Fresh(usize),
}

impl VolumePage {
    /// Its number in the volume.
    pub(crate) fn number(self) -> usize
        ensures { result ≡ number_of self }
    {
        match self {
            VolumePage::Held(number) | VolumePage::Fresh(number) => number,
        }
    }

    /// What counts as one of its words.
    pub(crate) fn word<V: Volume>(self, volume: &V, word: usize) -> u32
        requires number { number_of self < pages_in (V.Volume.words volume.now) }
        requires word { word < 16 }
        ensures { result ≡ (if is_fresh self then 0 else told (V.Volume.words volume.now) (number_of self * 16 + word)) }
    {
        match self {
            VolumePage::Held(number) => volume.read(number, word).unwrap_or(0),
            VolumePage::Fresh(_) => 0,
        }
    }

    /// The word at `at` of a segment, which is word `word` of the page, after the words of the extent were written.
    fn new_word<V: Volume>(self, volume: &V, word: usize, at: usize, extent: Extent<'_>) -> u32
        requires number { number_of self < pages_in (V.Volume.words volume.now) }
        requires word { word < 16 }
        ensures { result ≡ word_over extent.entry.first extent.entry.words.now at (if is_fresh self then 0 else told (V.Volume.words volume.now) (number_of self * 16 + word)) }
    {
        extent.word(at).unwrap_or_else(|| self.word(volume, word))
    }

    /// Puts the words that fall into page `page` of a segment, which it serves, into it. A fresh page has zeros elsewhere.
    pub(crate) fn write<V: Volume>(self, volume: &mut V, page: Nibble, extent: Extent<'_>)
        requires { number_of self < pages_in (V.Volume.words volume.old) }
        ensures pages { pages_in (V.Volume.words volume.new) ≡ pages_in (V.Volume.words volume.old) }
        ensures words { (x : ℕ) → told (V.Volume.words volume.new) x ≡ page_written (told (V.Volume.words volume.old)) (number_of self) (is_fresh self) page.value extent.entry.first extent.entry.words.now 16 x }
    {
        let number = self.number();
        for word in 0..PAGE_WORDS {
            let value = self.new_word(volume, word, PAGE_WORDS * page.value + word, extent);
            let _ = volume.write(number, word, value);
        }
    }
}
