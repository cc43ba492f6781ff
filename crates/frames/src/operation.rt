//! Which of the eleven calls.
ghost use Rattle.std.specs.Prelude.{◌≡◌};
ghost use Rattle.frames.specs.declared.fault.Flaw.TheVariants.{NotACall};
ghost use Rattle.frames.specs.Decode.{map_ok};
ghost use Rattle.frames.specs.Operations.{operation_number, numbered};

use crate::fault::Flaw;

/// A call by its number, without arguments.
#[derive(Clone, Copy, PartialEq, Eq, Debug)]
pub(crate) enum Operation {
    CreateSegment = 1,
    CreateDirectory = 2,
    MakeKnown = 3,
    Terminate = 4,
    Read = 5,
    Write = 6,
    Truncate = 7,
    Delete = 8,
    MoveQuota = 9,
    Status = 10,
    Quota = 11,
}

impl Operation {
    /// The number by which a head names the call.
    pub(crate) fn number(self) -> u32
        ensures { result ≡ operation_number self }
    {
        self as u32
    }
}

impl TryFrom<u32> for Operation {
    type Error = Flaw;

    ghost try_from_gives = { λ n r. map_ok operation_number r ≡ numbered 11 NotACall n };

    fn try_from(number: u32) -> Result<Operation, Flaw> {
        match number {
            1 => Ok(Operation::CreateSegment),
            2 => Ok(Operation::CreateDirectory),
            3 => Ok(Operation::MakeKnown),
            4 => Ok(Operation::Terminate),
            5 => Ok(Operation::Read),
            6 => Ok(Operation::Write),
            7 => Ok(Operation::Truncate),
            8 => Ok(Operation::Delete),
            9 => Ok(Operation::MoveQuota),
            10 => Ok(Operation::Status),
            11 => Ok(Operation::Quota),
            _ => Err(Flaw::NotACall),
        }
    }
}
