//! Sixteen numbers, each there or not.
ghost use Rattle.std.specs.Prelude.{◌≡◌};
ghost use Rattle.rules.specs.Indexed.{sum};
ghost use Rattle.forest.specs.Forest.{has};
ghost use Rattle.tables.specs.Links.{link, no_links};

use crate::sixteen::Sixteen;

/// Sixteen numbers, each there or not: the objects at a directory's places, or the volume pages of a segment's pages.
pub type Links = Sixteen<Option<usize>>;

impl Links {
    /// Sixteen numbers, none of them there.
    pub fn new() -> Links
        ensures { link result ≡ no_links }
    {
        Sixteen::filled(None)
    }

    /// Takes every number out.
    pub fn clear(&mut self)
        ensures { link self.new ≡ no_links }
    {
        *self = Links::new();
    }

    /// How many of the numbers are there.
    pub fn count(&self) -> u32
        ensures { result ≡ sum 16 (λ k. has (link self.now k)) }
    {
        let mut count = 0;
        for index in 0..16 {
            if self.find(index).is_some() {
                count += 1;
            }
        }
        count
    }
}
