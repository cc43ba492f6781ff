//! Why something is denied, and which word of the frame is to blame.
ghost use Rattle.std.specs.Prelude.{◌≡◌, ℕ};
ghost use Rattle.frames.specs.Faults.{flaw_number, flaw_layer};

/// Why something is denied. All reasons of one type are of one layer.
pub trait Reason: Copy {
    /// The number of each reason.
    ghost number_of: { Self → ℕ };

    /// The layer of all reasons of the type.
    ghost LAYER: { ℕ };

    /// The layer that denies.
    const LAYER: u32;

    /// The number of the denial.
    fn number(self) -> u32
        ensures { result ≡ number_of self };

    /// The fault for this reason, with the word of that index to blame.
    fn at(self, place: usize) -> Fault<Self>
        ensures { result ≡ record { reason = self; place = place } }
    {
        Fault {
            reason: self,
            place,
        }
    }
}

/// A denial: its reason, and the index of the word to blame.
#[derive(Clone, Copy, PartialEq, Eq, Debug)]
pub struct Fault<R> {
    pub reason: R,
    pub place: usize,
}

impl<R: Reason> Fault<R> {
    /// The layer that denies.
    pub fn layer(self) -> u32
        ensures { result ≡ R.LAYER }
    {
        R::LAYER
    }
}

/// What is wrong with a frame, in the order in which it is tested.
#[derive(Clone, Copy, PartialEq, Eq, Debug)]
pub enum Flaw {
    /// The process that handed it in is not admitted.
    NotAdmitted,
    /// No word, top bits that are not 8, or no such call.
    NotACall,
    /// The count differs from the words that follow, or from what the call takes.
    WrongCount,
    /// An argument of another kind than the call takes there.
    WrongKind,
    /// A value out of its range.
    OutOfRange,
}

/// A denied frame.
pub type FrameFault = Fault<Flaw>;

impl Reason for Flaw {
    ghost number_of = { flaw_number };

    ghost LAYER = { flaw_layer };

    const LAYER: u32 = 1;

    fn number(self) -> u32 {
        match self {
            Flaw::NotAdmitted => 1,
            Flaw::NotACall => 2,
            Flaw::WrongCount => 3,
            Flaw::WrongKind => 4,
            Flaw::OutOfRange => 5,
        }
    }
}
