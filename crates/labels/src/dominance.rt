//! What orders of words and the order of labels have in common.
ghost use Rattle.std.specs.Prelude.{◌≡◌};
ghost use Rattle.labels.specs.Orders.{Order, LowValid, HighValid, Reflexive, Transitive, Antisymmetric, Laws, incomparable};

/// An order of words, or of labels: which are valid, and which dominates which. Code over it knows no more of it than
/// these laws.
pub trait Dominance {
    /// What it orders.
    type Item: Copy;

    /// Which items are valid, and which are below which.
    ghost order: { Self → Order Self.Item };

    /// Whether an item is valid.
    fn valid(&self, item: Self::Item) -> bool
        ensures { result ≡ (order self.now).valid item };

    /// Whether `a` is below `b`, which then dominates it.
    fn below(&self, a: Self::Item, b: Self::Item) -> bool
        ensures { result ≡ (order self.now).below a b };

    /// Whether neither item is below the other.
    fn incomparable(&self, a: Self::Item, b: Self::Item) -> bool
        ensures { result ≡ incomparable (order self.now) a b }
    {
        !self.below(a, b) && !self.below(b, a)
    }

    /// An invalid item is below nothing.
    ghost low: { (x : Self) → LowValid (order x) };

    /// An invalid item has nothing below it.
    ghost high: { (x : Self) → HighValid (order x) };

    /// Each valid item is below itself.
    ghost reflexive: { (x : Self) → Reflexive (order x) };

    /// Where `a` is below `b` and `b` is below `c`, `a` is below `c`.
    ghost transitive: { (x : Self) → Transitive (order x) };

    /// Two different items are never each below the other.
    ghost antisymmetric: { (x : Self) → Antisymmetric (order x) };

    /// All of these together, for lemmas that take an order.
    ghost laws: { (x : Self) → Laws (order x) } = { λ x. record { low = low x; high = high x; reflexive = reflexive x; transitive = transitive x; antisymmetric = antisymmetric x } };
}
