//! Code over any order, of words or of labels, as a store has it: the laws come with the bound.
#![tactic(auto)]

ghost use Rattle.std.specs.Prelude.{◌≡◌, true, Decides};
ghost use Rattle.labels.specs.Labels.{orders_of, valid, below};
ghost use Rattle.label_clients.specs.Chains.{chain};

use labels::{Dominance, Label, LabelOrder, PartOrder};

/// Whether two items are each below the other. They are exactly where they are one valid item.
pub fn both_ways<O: Dominance>(order: &O, a: O::Item, b: O::Item) -> bool
    ensures { Decides result ((a ≡ b) × ((O.Dominance.order order.now).valid a ≡ true)) }
{
    order.below(a, b) && order.below(b, a)
}

/// Whether `a` is below `b`, and `b` below `c`. Then `a` is below `c`.
pub fn chained<O: Dominance>(order: &O, a: O::Item, b: O::Item, c: O::Item) -> bool
    ensures value { result ≡ chain (O.Dominance.order order.now).below a b c }
    ensures transitive { result ≡ true → (O.Dominance.order order.now).below a c ≡ true }
{
    order.below(a, b) && order.below(b, c)
}

/// Whether two labels are each below the other. They are exactly where they are one valid label.
pub fn labels_both_ways<S: PartOrder, I: PartOrder>(
    order: &LabelOrder<S, I>,
    low: Label,
    high: Label,
) -> bool
    ensures { Decides result ((low ≡ high) × (valid (orders_of S.Dominance I.Dominance order.now) low ≡ true)) }
{
    both_ways(order, low, high)
}

/// Whether `low` is below `mid`, and `mid` below `high`. Then `low` is below `high`.
pub fn labels_chained<S: PartOrder, I: PartOrder>(
    order: &LabelOrder<S, I>,
    low: Label,
    mid: Label,
    high: Label,
) -> bool
    ensures value { result ≡ chain (below (orders_of S.Dominance I.Dominance order.now)) low mid high }
    ensures transitive { result ≡ true → below (orders_of S.Dominance I.Dominance order.now) low high ≡ true }
{
    chained(order, low, mid, high)
}
