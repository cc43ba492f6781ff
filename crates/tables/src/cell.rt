//! Quota cells.
ghost use Rattle.std.specs.Prelude.{◌≤◌};

mod methods;

/// A quota cell: the records granted, and those left. It never has more left than granted.
#[derive(Clone, Copy, PartialEq, Eq, Debug)]
pub struct Cell {
    granted: u32,
    left: u32,
    ghost not_more: { left ≤ granted },
}
