//! Labels, and how two part orders order them.
ghost use Rattle.std.specs.Prelude.{◌≡◌};
ghost use Rattle.std.proofs.Common.{rules};
ghost use Rattle.labels.specs.Labels.{orders_of, label_order};

use crate::dominance::Dominance;
use crate::part_order::PartOrder;

/// A security word and an integrity word.
#[derive(Clone, Copy, PartialEq, Eq, Debug)]
pub struct Label {
    pub security: u32,
    pub integrity: u32,
}

/// An order of labels: a part order for the security words, and one for the integrity words.
#[derive(Clone, Copy, PartialEq, Eq, Debug, Drop)]
pub struct LabelOrder<S, I> {
    pub security: S,
    pub integrity: I,
}

impl<S: PartOrder, I: PartOrder> Dominance for LabelOrder<S, I> {
    type Item = Label;

    ghost order = { λ x. label_order (orders_of S.Dominance I.Dominance x) };

    ghost low = { Prim.search rules };

    ghost high = { Prim.search rules };

    ghost reflexive = { Prim.search rules };

    ghost transitive = { Prim.search rules };

    ghost antisymmetric = { Prim.search rules };

    /// Whether both words of a label are valid.
    fn valid(&self, label: Label) -> bool {
        self.security.valid(label.security) && self.integrity.valid(label.integrity)
    }

    /// Whether `high` dominates `low`: each word of `low` is below that of `high`, in its own order.
    fn below(&self, low: Label, high: Label) -> bool {
        self.security.below(low.security, high.security)
            && self.integrity.below(low.integrity, high.integrity)
    }
}
