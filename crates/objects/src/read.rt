//! Words read from segments.
ghost use Rattle.std.specs.Prelude.{◌≡◌, ◌<◌, ◌≤◌};
ghost use Rattle.volumes.specs.Pages.{pages_in};
ghost use Rattle.rules.specs.Segments.{segment_word};
ghost use Rattle.forest.specs.Nodes.{IsSeg};
ghost use Rattle.forest.specs.Forest.{pages_of};
ghost use Rattle.objects.specs.Views.{nodes, records};
ghost use Rattle.objects.specs.Writes.{told};

use crate::objects::Objects;
use volumes::{PAGE_WORDS, Volume};

impl Objects {
    /// A word of a segment. An absent page reads as zeros.
    pub fn word<V: Volume>(&self, volume: &V, segment: usize, index: usize) -> u32
        requires segment { IsSeg (nodes self.now segment).body }
        requires index { index < 256 }
        requires volume { records self.now ≤ pages_in (V.Volume.words volume.now) }
        ensures { result ≡ segment_word (pages_of (told (V.Volume.words volume.now)) (nodes self.now segment).page) index }
    {
        match self.storage.table.page(segment, index / PAGE_WORDS) {
            Some(page) => volume.read(page, index % PAGE_WORDS).unwrap_or(0),
            None => 0,
        }
    }
}
