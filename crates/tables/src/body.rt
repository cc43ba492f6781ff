//! What an object is.
ghost use Rattle.std.specs.Prelude.{◌≡◌, MatchBool};
ghost use Rattle.std.specs.Option.{ForSome};
ghost use Rattle.forest.specs.Nodes.{unused, IsLive, celled, charged_body, regranted_body};
ghost use Rattle.forest.specs.Forest.{cell_in};
ghost use Rattle.tables.specs.Cells.{CanCharge, CanRegrant};
ghost use Rattle.tables.specs.Bodies.{body_of, own_cell, ChangesCell};

use crate::cell::Cell;
use labels::Label;

/// A directory's label, and its cell if it has one.
#[derive(Clone, Copy, PartialEq, Eq, Debug)]
pub struct Directory {
    pub label: Label,
    pub cell: Option<Cell>,
}

/// What an object is: not in use, a segment or a directory.
#[derive(Clone, Copy, PartialEq, Eq, Debug)]
pub enum Body {
    Unused,
    Segment,
    Directory(Directory),
}

impl Body {
    /// Whether it has a cell.
    pub fn has_cell(self) -> bool
        ensures { result ≡ celled (body_of self) }
    {
        match self {
            Body::Directory(directory) => directory.cell.is_some(),
            Body::Unused | Body::Segment => false,
        }
    }

    /// Whether it is in use.
    pub fn is_live(self) -> bool
        ensures { MatchBool result (IsLive (body_of self)) (body_of self ≡ unused) }
    {
        match self {
            Body::Unused => false,
            Body::Segment | Body::Directory(_) => true,
        }
    }

    /// The body with its cell, if it has one, after some records were taken from it and some came back.
    pub fn charged(self, taken: u32, back: u32) -> Body
        requires { CanCharge taken back (cell_in (body_of self)) }
        ensures { body_of result ≡ charged_body taken back (body_of self) }
    {
        self.with_cell(|cell| cell.charged(taken, back))
    }

    /// The body with the grant of its cell, if it has one, and what is left, raised and lowered.
    pub fn regranted(self, up: u32, down: u32) -> Body
        requires { CanRegrant up down (cell_in (body_of self)) }
        ensures { body_of result ≡ regranted_body up down (body_of self) }
    {
        self.with_cell(|cell| cell.regranted(up, down))
    }

    /// The body with its cell, if it has one, changed.
    fn with_cell<F: FnOnce(Cell) -> Cell>(self, change: F) -> Body
        requires { ForSome (own_cell self) (F.pre change) }
        ensures { ChangesCell (F.post change) self result }
    {
        match self {
            Body::Directory(Directory { label, cell }) => Body::Directory(Directory {
                label,
                cell: cell.map(change),
            }),
            Body::Unused | Body::Segment => self,
        }
    }
}
