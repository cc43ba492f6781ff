//! The eleven calls, decoded.

/// A call with its arguments. `directory`, `segment` and `number` are known numbers of the process that calls,
/// `entry` is a place of the directory, and the data words of a write stay in the frame that they came in.
#[derive(Clone, Copy, PartialEq, Eq, Debug)]
pub enum Call<'a> {
    /// Puts a segment without pages at a place of a directory.
    CreateSegment {
        directory: u32,
        entry: u32,
    },
    /// Puts a directory with a label of its own, and with a quota cell where the grant is not 0.
    CreateDirectory {
        directory: u32,
        entry: u32,
        security: u32,
        integrity: u32,
        grant: u32,
    },
    /// Makes a known number mean the object at a place.
    MakeKnown {
        directory: u32,
        entry: u32,
        number: u32,
    },
    /// Frees a known number.
    Terminate {
        number: u32,
    },
    /// Copies words of a segment to the start of the reply buffer.
    Read {
        segment: u32,
        first: u32,
        count: u32,
    },
    /// Puts data words into a segment.
    Write {
        segment: u32,
        first: u32,
        words: &'a [u32],
    },
    /// Drops the pages of a segment from number `keep` on.
    Truncate {
        segment: u32,
        keep: u32,
    },
    /// Removes the object at a place and all below it.
    Delete {
        directory: u32,
        entry: u32,
    },
    /// Moves records from the cell that the directory uses to the cell at a place, or back where negative.
    MoveQuota {
        directory: u32,
        entry: u32,
        amount: i32,
    },
    /// Tells the entry at a place.
    Status {
        directory: u32,
        entry: u32,
    },
    /// Tells the cell that a directory uses.
    Quota {
        directory: u32,
    },
}
