//! What a line of a listing says.

/// A call as a process hands it in: the number of the process, and the words of its frame.
#[derive(Debug, PartialEq, Eq, Drop)]
pub struct Submission {
    pub process: u8,
    pub frame: Vec<u32>,
}

/// A line with its number, from 1 on. Its call is `None` where the line is unreadable.
#[derive(Debug, PartialEq, Eq, Drop)]
pub struct Line {
    pub number: u32,
    pub call: Option<Submission>,
}
