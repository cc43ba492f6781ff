//! Why the store denies a call, a root label or an admission, and which word of the frame is to blame.
ghost use Rattle.rules.specs.Denials.{denial_number, denial_layer};

use frames::fault::{Fault, Reason};

/// The denials of the store, by number.
#[derive(Clone, Copy, PartialEq, Eq, Debug)]
pub enum Denial {
    /// The known number is free.
    NumberFree,
    /// The object of the known number was deleted.
    NumberGone,
    /// A segment where a directory is asked for, or a directory where a segment is.
    WrongSort,
    /// The process's label is not that of the object.
    OtherLabel,
    /// A taken place where an empty one is asked for, or an empty place where an object is.
    WrongPlace,
    /// A label that is invalid, or that does not dominate the one below it.
    WrongLabel,
    /// The known number that is to be set is not free.
    NumberTaken,
    /// A grant that the rules of cells do not allow.
    WrongGrant,
    /// The paying cell has too few records left.
    TooFewLeft,
    /// Eight processes are admitted already.
    ProcessesFull,
}

/// A denial of the store, and the index of the frame's word to blame.
pub type StoreFault = Fault<Denial>;

impl Reason for Denial {
    ghost number_of = { denial_number };

    ghost LAYER = { denial_layer };

    const LAYER: u32 = 2;

    fn number(self) -> u32 {
        match self {
            Denial::NumberFree => 6,
            Denial::NumberGone => 7,
            Denial::WrongSort => 8,
            Denial::OtherLabel => 9,
            Denial::WrongPlace => 10,
            Denial::WrongLabel => 11,
            Denial::NumberTaken => 12,
            Denial::WrongGrant => 13,
            Denial::TooFewLeft => 14,
            Denial::ProcessesFull => 15,
        }
    }
}
