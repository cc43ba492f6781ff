//! Orders of the words of a label.
ghost use Rattle.labels.specs.Orders.{Small, Lawful};

use crate::dominance::Dominance;

/// The order of one word of a label, the security word or the integrity word.
pub trait PartOrder: Dominance<Item = u32> {
    /// A word of 2^28 or more is never valid.
    ghost small: { (x : Self) → Small (Self.order x) };

    /// This and the laws of dominance together, for lemmas that take an order.
    ghost lawful: { (x : Self) → Lawful (Self.order x) };
}
