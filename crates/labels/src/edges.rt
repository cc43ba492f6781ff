//! The order of levels and categories at its edges.
ghost use Rattle.std.specs.Prelude.{◌≡◌, true};
ghost use Rattle.labels.specs.Edges.{LevelEdges};

use crate::dominance::Dominance;
use crate::level_category::LevelCategory;

/// The edges of levels and categories, as `LevelCategory` answers them too.
pub fn level_edges() -> bool
    ensures edges { LevelEdges }
    ensures value { result ≡ true }
{
    LevelCategory.below(0x00003, 0x10007)
        && !LevelCategory.below(0x10003, 0x10001)
        && LevelCategory.valid(0x7FFFF)
        && !LevelCategory.valid(0x80000)
}
