//! Another order, reversed.
ghost use Rattle.labels.specs.PartOrders.{reversed};
ghost use Rattle.std.proofs.Common.{rules};

use crate::dominance::Dominance;
use crate::part_order::PartOrder;

/// The order that it holds, reversed: the same items are valid, and `a` is below `b` where that order has `b` below
/// `a`.
#[derive(Clone, Copy, PartialEq, Eq, Debug, Drop)]
pub struct Reversed<P>(pub P);

impl<P: Dominance> Dominance for Reversed<P> {
    type Item = P::Item;

    ghost order = { λ x. reversed (P.Dominance.order x.0) };

    ghost low = { Prim.search rules };

    ghost high = { Prim.search rules };

    ghost reflexive = { Prim.search rules };

    ghost transitive = { Prim.search rules };

    ghost antisymmetric = { Prim.search rules };

    fn valid(&self, item: P::Item) -> bool {
        self.0.valid(item)
    }

    fn below(&self, a: P::Item, b: P::Item) -> bool {
        self.0.below(b, a)
    }
}

impl<P: PartOrder> PartOrder for Reversed<P> {
    ghost small = { Prim.search rules };

    ghost lawful = { Prim.search rules };
}
