//! Words written into segments.
ghost use Rattle.std.specs.Prelude.{◌≡◌, ℕ, ◌+◌, ◌*◌, ◌≤◌, length};
ghost use Rattle.volumes.specs.Pages.{pages_in};
ghost use Rattle.rules.specs.Segments.{made_present};
ghost use Rattle.rules.specs.Changes.{write_words, change, tree_after};
ghost use Rattle.forest.specs.Nodes.{IsSeg};
ghost use Rattle.forest.specs.Forest.{tree_of, path_to, pages_of, cell_at};
ghost use Rattle.forest.specs.Steps.{Stays};
ghost use Rattle.objects.specs.Views.{nodes, records};
ghost use Rattle.objects.specs.Writes.{told};

use crate::extent::Extent;
use crate::objects::Objects;
use volumes::Volume;

impl Objects {
    /// Writes the words into a segment, from its word `first` on, and tells how many pages that makes present. The cell
    /// that the segment uses pays for them.
    pub fn write<V: Volume>(
        &mut self,
        volume: &mut V,
        segment: usize,
        first: usize,
        words: &[u32],
    ) -> u32
        requires segment { IsSeg (nodes self.old segment).body }
        requires small { first + length words.now ≤ 256 }
        requires volume { records self.old ≤ pages_in (V.Volume.words volume.old) }
        requires paid { made_present (pages_of (told (V.Volume.words volume.old)) (nodes self.old segment).page) first words.now ≤ (cell_at (nodes self.old) (nodes self.old segment).payer).left }
        ensures value { result ≡ made_present (pages_of (told (V.Volume.words volume.old)) (nodes self.old segment).page) first words.now }
        ensures tree { tree_of (told (V.Volume.words volume.new)) (nodes self.new) ≡ tree_after (path_to (nodes self.old) segment) (change (write_words first words.now) result 0) (tree_of (told (V.Volume.words volume.old)) (nodes self.old)) }
        ensures stays { Stays (nodes self.old) (nodes self.new) }
        ensures records { records self.new ≡ records self.old }
        ensures length { length (V.Volume.words volume.new) ≡ length (V.Volume.words volume.old) }
        ensures beyond { (x : ℕ) → 16 * records self.old ≤ x → told (V.Volume.words volume.new) x ≡ told (V.Volume.words volume.old) x }
    {
        let extent = Extent { first, words };
        let count = self.storage.missing(segment, extent);
        self.storage.charge(segment, count, 0);
        self.storage.write_words(volume, segment, extent);
        count
    }
}
