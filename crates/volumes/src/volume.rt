//! What every volume promises.
ghost use Rattle.std.specs.Prelude.{◌≡◌, ℕ, List};
ghost use Rattle.volumes.specs.Pages.{Whole, pages_in, inside, word_at, written};

/// A fixed number of pages, at most `MAX_PAGES`, each of `PAGE_WORDS` words of 32 bits.
pub trait Volume {
    /// The value: all words of all pages, in order.
    ghost words: { Self → List ℕ };

    /// How many pages there are.
    fn pages(&self) -> usize
        ensures { result ≡ pages_in (words self.now) };

    /// That word of that page, if there is one. Reading alters nothing, as `&self` says.
    fn read(&self, page: usize, word: usize) -> Option<u32>
        ensures { result ≡ word_at (words self.now) page word };

    /// Puts a value into that word of that page, if there is one, and says whether there is. Nothing else changes.
    fn write(&mut self, page: usize, word: usize, value: u32) -> bool
        ensures value { result ≡ inside (words self.old) page word }
        ensures words { words self.new ≡ written (words self.old) page word value }
        ensures pages { pages_in (words self.new) ≡ pages_in (words self.old) };

    /// The value is whole pages, and no more than a volume may have.
    ghost whole: { (x : Self) → Whole (words x) };
}
