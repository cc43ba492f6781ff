//! The laws of histories, each the contract of a function, so that the check asks for its proof.
ghost use Rattle.rules.specs.Balance.{Balance};
ghost use Rattle.rules.specs.Edges.{Edges};
ghost use Rattle.rules.specs.Exchange.{Exchange};
ghost use Rattle.rules.specs.Histories.{RepliesExact};
ghost use Rattle.rules.specs.Invariants.{InvariantsKept};
ghost use Rattle.rules.specs.Isolation.{Isolation};

/// Two histories with the same calls at or below a label give these equal replies and words, and leave equal what stands
/// at or below it.
pub fn isolation()
    ensures { Isolation }
{}

/// Two neighbouring calls of processes with incomparable labels may change places: every call keeps its reply and words,
/// and the store ends the same.
pub fn exchange()
    ensures { Exchange }
{}

/// After each call, records left, present pages and objects add up to the store's records, and in and below each directory
/// with a cell to its grant; and no cell has more left than granted.
pub fn balance()
    ensures { Balance }
{}

/// After each call, known numbers mean standing objects below their process, number 0 the root, labels grow along the tree,
/// each object has a cell that pays, and none lies deeper than there are objects.
pub fn invariants()
    ensures { InvariantsKept }
{}

/// A denied call changes nothing, every reply tells its layer, and words fit into the reply buffer.
pub fn replies_exact()
    ensures { RepliesExact }
{}

/// The edges of the label order and of frames.
pub fn edges()
    ensures { Edges }
{}
