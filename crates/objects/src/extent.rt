//! Words for a segment.
ghost use Rattle.std.specs.Prelude.{◌≡◌, ℕ, ◌+◌, ◌<◌, ◌≤◌, length, unwrap_or};
ghost use Rattle.rules.specs.Segments.{touched};
ghost use Rattle.forest.specs.Words.{word_over};

use tables::Nibble;
use volumes::PAGE_WORDS;

/// Words for a segment, of which the first is to be its word `first`.
#[derive(Clone, Copy)]
pub(crate) struct Extent<'a> {
    pub(crate) first: usize,
    pub(crate) words: &'a [u32],
    ghost inside: { first + length words.now ≤ 256 },
}

impl Extent<'_> {
    /// Whether a page has one of the words.
    pub(crate) fn touches(self, page: Nibble) -> bool
        ensures { result ≡ touched self.entry.first (length self.entry.words.now) page.value }
    {
        let page = page.value;
        self.first / PAGE_WORDS <= page && PAGE_WORDS * page < self.first + self.words.len()
    }

    /// The one that is to be a word of the segment, if there is one.
    pub(crate) fn word(self, at: usize) -> Option<u32>
        ensures { (old : ℕ) → unwrap_or result old ≡ word_over self.entry.first self.entry.words.now at old }
    {
        let there = self.first <= at && at < self.first + self.words.len();
        there.then(|| self.words[at - self.first])
    }
}
