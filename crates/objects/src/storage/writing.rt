//! Words written into the pages of segments.
ghost use Rattle.std.specs.Prelude.{◌≡◌, ℕ, ◌+◌, ◌*◌, ◌<◌, ◌≤◌, length, ◌≢◌, ◌&&◌};
ghost use Rattle.std.specs.Option.{is_none};
ghost use Rattle.volumes.specs.Pages.{pages_in};
ghost use Rattle.rules.specs.Indexed.{sum};
ghost use Rattle.rules.specs.Segments.{touched, pages_written};
ghost use Rattle.forest.specs.Nodes.{with_pages};
ghost use Rattle.forest.specs.Forest.{pages_of};
ghost use Rattle.tables.specs.Objects.{look, table_size};
ghost use Rattle.tables.specs.Stacks.{stack_height, stack_room};
ghost use Rattle.objects.specs.PageChanges.{ChangesPages};
ghost use Rattle.objects.specs.Writes.{told, lacks, one_written};

use crate::extent::Extent;
use crate::storage::Storage;
use crate::storage::pages::PAGES;
use tables::Nibble;
use volumes::Volume;

impl Storage {
    /// Whether a page is absent and has one of the words.
    fn is_missing(&self, index: usize, page: Nibble, extent: Extent<'_>) -> bool
        requires { index < table_size self.now.table }
        ensures { result ≡ (touched extent.entry.first (length extent.entry.words.now) page.value && is_none ((look self.now.table index).page page.value)) }
    {
        extent.touches(page) && self.table.page(index, page.value).is_none()
    }

    /// How many absent pages of an object have one of the words.
    pub(crate) fn missing(&self, index: usize, extent: Extent<'_>) -> u32
        requires { index < table_size self.now.table }
        ensures value { result ≡ sum 16 (lacks extent.entry.first (length extent.entry.words.now) (look self.now.table index).page) }
        ensures few { result ≤ 16 }
    {
        let missing = (0..PAGES).map(|page| u32::from(self.is_missing(
            index,
            Nibble::new(page),
            extent,
        )));
        missing.sum()
    }

    /// Writes the words that fall into one page.
    fn write_one<V: Volume>(
        &mut self,
        volume: &mut V,
        index: usize,
        page: Nibble,
        extent: Extent<'_>,
    )
        requires index { index < table_size self.old.table }
        requires volume { stack_room self.old.spare ≤ pages_in (V.Volume.words volume.old) }
        requires enough { lacks extent.first (length extent.words.now) (look self.old.table index).page page.value ≤ stack_height self.old.spare }
        ensures changed { ChangesPages self.old self.new index (λ n. with_pages n (look self.new.table index).page) }
        ensures height { stack_height self.new.spare + lacks extent.entry.first (length extent.entry.words.now) (look self.old.table index).page page.value ≡ stack_height self.old.spare }
        ensures own { pages_of (told (V.Volume.words volume.new)) (look self.new.table index).page ≡ one_written (pages_of (told (V.Volume.words volume.old)) (look self.old.table index).page) extent.entry.first extent.entry.words.now page.value }
        ensures others { (j : ℕ) → (j ≢ index) → pages_of (told (V.Volume.words volume.new)) (look self.new.table j).page ≡ pages_of (told (V.Volume.words volume.old)) (look self.old.table j).page }
        ensures pages { pages_in (V.Volume.words volume.new) ≡ pages_in (V.Volume.words volume.old) }
        ensures beyond { (x : ℕ) → 16 * stack_room self.old.spare ≤ x → told (V.Volume.words volume.new) x ≡ told (V.Volume.words volume.old) x }
    {
        if extent.touches(page) {
            self.ensure_page(index, page).write(volume, page, extent);
        }
    }

    /// Writes the words into a segment. Absent pages that have one of the words become present.
    pub(crate) fn write_words<V: Volume>(
        &mut self,
        volume: &mut V,
        index: usize,
        extent: Extent<'_>,
    )
        requires index { index < table_size self.old.table }
        requires volume { stack_room self.old.spare ≤ pages_in (V.Volume.words volume.old) }
        requires enough { sum 16 (lacks extent.first (length extent.words.now) (look self.old.table index).page) ≤ stack_height self.old.spare }
        ensures changed { ChangesPages self.old self.new index (λ n. with_pages n (look self.new.table index).page) }
        ensures own { pages_of (told (V.Volume.words volume.new)) (look self.new.table index).page ≡ pages_written (pages_of (told (V.Volume.words volume.old)) (look self.old.table index).page) extent.entry.first extent.entry.words.now }
        ensures others { (j : ℕ) → (j ≢ index) → pages_of (told (V.Volume.words volume.new)) (look self.new.table j).page ≡ pages_of (told (V.Volume.words volume.old)) (look self.old.table j).page }
        ensures pages { pages_in (V.Volume.words volume.new) ≡ pages_in (V.Volume.words volume.old) }
        ensures beyond { (x : ℕ) → 16 * stack_room self.old.spare ≤ x → told (V.Volume.words volume.new) x ≡ told (V.Volume.words volume.old) x }
    {
        for page in 0..PAGES {
            self.write_one(volume, index, Nibble::new(page), extent);
        }
    }
}
