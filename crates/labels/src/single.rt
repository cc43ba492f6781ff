//! The order of one word.
ghost use Rattle.labels.specs.PartOrders.{single};
ghost use Rattle.std.proofs.Common.{rules};

use crate::dominance::Dominance;
use crate::part_order::PartOrder;

/// The word 0 is valid, and no other.
#[derive(Clone, Copy, PartialEq, Eq, Debug)]
pub struct Single;

impl Dominance for Single {
    type Item = u32;

    ghost order = { λ _. single };

    ghost low = { Prim.search rules };

    ghost high = { Prim.search rules };

    ghost reflexive = { Prim.search rules };

    ghost transitive = { Prim.search rules };

    ghost antisymmetric = { Prim.search rules };

    fn valid(&self, word: u32) -> bool {
        word == 0
    }

    fn below(&self, a: u32, b: u32) -> bool {
        self.valid(a) && self.valid(b)
    }
}

impl PartOrder for Single {
    ghost small = { Prim.search rules };

    ghost lawful = { Prim.search rules };
}
