//! Segments cut short.
ghost use Rattle.std.specs.Prelude.{◌≡◌, ℕ, ◌≤◌};
ghost use Rattle.rules.specs.Segments.{made_absent};
ghost use Rattle.rules.specs.Changes.{keep_pages, change};
ghost use Rattle.forest.specs.Nodes.{IsSeg};
ghost use Rattle.forest.specs.Forest.{path_to, pages_of};
ghost use Rattle.forest.specs.Steps.{Enacted, Stays};
ghost use Rattle.objects.specs.Views.{nodes, records};

use crate::objects::Objects;

impl Objects {
    /// Makes the pages of a segment numbered `keep` and up absent, and tells how many were present. The cell that the
    /// segment uses gets as many records back.
    pub fn truncate(&mut self, segment: usize, keep: usize) -> u32
        requires segment { IsSeg (nodes self.old segment).body }
        requires keep { keep ≤ 16 }
        ensures value { (w : ℕ → ℕ) → result ≡ made_absent (pages_of w (nodes self.old segment).page) keep }
        ensures tree { Enacted (nodes self.old) (nodes self.new) (path_to (nodes self.old) segment) (change (keep_pages keep) 0 result) }
        ensures stays { Stays (nodes self.old) (nodes self.new) }
        ensures records { records self.new ≡ records self.old }
    {
        let back = self.storage.present_from(segment, keep);
        self.storage.charge(segment, 0, back);
        self.storage.drop_pages(segment, keep);
        back
    }
}
