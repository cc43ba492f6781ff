//! Numbers below 16.
ghost use Rattle.std.specs.Prelude.{◌≡◌, ◌<◌};

/// A number below 16: of a place in a directory, of a page of a segment, or a known number of a process.
#[derive(Clone, Copy, PartialEq, Eq, Debug)]
pub struct Nibble {
    pub value: usize,
    ghost small: { value < 16 },
}

impl Nibble {
    /// The number, which is below 16.
    pub fn new(value: usize) -> Nibble
        requires { value < 16 }
        ensures { result.value ≡ value }
    {
        Nibble { value }
    }
}
