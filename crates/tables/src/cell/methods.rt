//! What a quota cell gives and takes back.
ghost use Rattle.std.specs.Prelude.{◌≡◌};
ghost use Rattle.rules.specs.Cells.{charge};
ghost use Rattle.forest.specs.Nodes.{regranted};
ghost use Rattle.tables.specs.Cells.{cell_of, full_cell, CanCharge, CanRegrant};

use crate::cell::Cell;

impl Cell {
    /// A cell with all of its grant left.
    pub fn new(grant: u32) -> Cell
        ensures { cell_of result ≡ full_cell grant }
    {
        Cell {
            granted: grant,
            left: grant,
        }
    }

    /// The records granted.
    pub fn granted(self) -> u32
        ensures { result ≡ (cell_of self).granted }
    {
        self.granted
    }

    /// The records left.
    pub fn left(self) -> u32
        ensures { result ≡ (cell_of self).left }
    {
        self.left
    }

    /// The cell after some records were taken from it and some came back.
    pub fn charged(self, taken: u32, back: u32) -> Cell
        requires { CanCharge taken back (cell_of self) }
        ensures { cell_of result ≡ charge taken back (cell_of self) }
    {
        Cell {
            granted: self.granted,
            left: self.left + back - taken,
        }
    }

    /// The cell with its grant, and what is left, raised and lowered.
    pub fn regranted(self, up: u32, down: u32) -> Cell
        requires { CanRegrant up down (cell_of self) }
        ensures { cell_of result ≡ regranted up down (cell_of self) }
    {
        Cell {
            granted: self.granted + up - down,
            left: self.left + up - down,
        }
    }
}
