//! What each call takes: one table, which the decoder and the encoder walk.
ghost use Rattle.std.specs.Prelude.{◌≡◌, length};
ghost use Rattle.frames.specs.declared.fault.Flaw.TheVariants.{WrongKind};
ghost use Rattle.frames.specs.Decode.{map_ok};
ghost use Rattle.frames.specs.Operations.{operation_number, numbered};
ghost use Rattle.frames.specs.Table.{kind_code, within, parameters_of, data_of, takes_data, takes};

use crate::fault::Flaw;
use crate::operation::Operation;

/// The kind of an argument, told by the top 4 bits of its word.
#[derive(Clone, Copy, PartialEq, Eq, Debug)]
pub(crate) enum Kind {
    KnownNumber = 1,
    Place = 2,
    Count = 3,
    Amount = 4,
    Security = 5,
    Integrity = 6,
}

impl Kind {
    /// The top 4 bits of an argument of this kind.
    pub(crate) fn code(self) -> u32
        ensures { result ≡ kind_code self }
    {
        self as u32
    }
}

impl TryFrom<u32> for Kind {
    type Error = Flaw;

    ghost try_from_gives = { λ n r. map_ok kind_code r ≡ numbered 6 WrongKind n };

    fn try_from(code: u32) -> Result<Kind, Flaw> {
        match code {
            1 => Ok(Kind::KnownNumber),
            2 => Ok(Kind::Place),
            3 => Ok(Kind::Count),
            4 => Ok(Kind::Amount),
            5 => Ok(Kind::Security),
            6 => Ok(Kind::Integrity),
            _ => Err(Flaw::WrongKind),
        }
    }
}

/// An argument that a call takes. The bounds hold of its size: the value itself, or the distance of a signed
/// amount from 0.
#[derive(Clone, Copy, PartialEq, Eq, Debug)]
pub(crate) struct Parameter {
    pub(crate) kind: Kind,
    least: u32,
    most: u32,
}

impl Parameter {
    /// Whether a value of 28 bits lies within the bounds.
    pub(crate) fn admits(&self, value: u32) -> bool
        ensures { result ≡ within self.now value }
    {
        let size = match self.kind {
            Kind::Amount if value >= 1 << 27 => (1u32 << 28).saturating_sub(value),
            _ => value,
        };
        (self.least..=self.most).contains(&size)
    }
}

/// What a call takes: its arguments, and then at most so many data words, and at least one where it takes any.
#[derive(Clone, Copy, PartialEq, Eq, Debug)]
pub(crate) struct Signature {
    pub(crate) parameters: &'static [Parameter],
    payload: usize,
}

impl Signature {
    /// Whether the call takes so many data words.
    pub(crate) fn takes_data(&self, words: usize) -> bool
        ensures { result ≡ takes_data self.now.payload words }
    {
        if self.payload == 0 {
            words == 0
        } else {
            (1..=self.payload).contains(&words)
        }
    }

    /// Whether the call takes so many words behind the head.
    pub(crate) fn takes(&self, words: usize) -> bool
        ensures { result ≡ takes (length self.now.parameters.now) self.now.payload words }
    {
        self.parameters.len() <= words && self.takes_data(words - self.parameters.len())
    }
}

const KNOWN: Parameter = Parameter {
    kind: Kind::KnownNumber,
    least: 0,
    most: 15,
};

/// A known number but the root's, which is never freed.
const FREEABLE: Parameter = Parameter {
    kind: Kind::KnownNumber,
    least: 1,
    most: 15,
};

const PLACE: Parameter = Parameter {
    kind: Kind::Place,
    least: 0,
    most: 15,
};

const SECURITY: Parameter = Parameter {
    kind: Kind::Security,
    least: 0,
    most: 0x0FFF_FFFF,
};

const INTEGRITY: Parameter = Parameter {
    kind: Kind::Integrity,
    least: 0,
    most: 0x0FFF_FFFF,
};

const GRANT: Parameter = Parameter {
    kind: Kind::Count,
    least: 0,
    most: 256,
};

const FIRST: Parameter = Parameter {
    kind: Kind::Count,
    least: 0,
    most: 255,
};

const COUNT: Parameter = Parameter {
    kind: Kind::Count,
    least: 1,
    most: 16,
};

const KEEP: Parameter = Parameter {
    kind: Kind::Count,
    least: 0,
    most: 16,
};

const AMOUNT: Parameter = Parameter {
    kind: Kind::Amount,
    least: 1,
    most: 256,
};

/// The most arguments that a call takes.
pub(crate) const MOST_ARGUMENTS: usize = 5;

/// How many calls there are; their numbers begin at 1.
const CALL_COUNT: usize = 11;

const CALLS: [Signature; CALL_COUNT] = [
    // 1 create segment
    Signature {
        parameters: &[KNOWN, PLACE],
        payload: 0,
    },
    // 2 create directory
    Signature {
        parameters: &[KNOWN, PLACE, SECURITY, INTEGRITY, GRANT],
        payload: 0,
    },
    // 3 make known
    Signature {
        parameters: &[KNOWN, PLACE, KNOWN],
        payload: 0,
    },
    // 4 terminate
    Signature {
        parameters: &[FREEABLE],
        payload: 0,
    },
    // 5 read
    Signature {
        parameters: &[KNOWN, FIRST, COUNT],
        payload: 0,
    },
    // 6 write
    Signature {
        parameters: &[KNOWN, FIRST],
        payload: 16,
    },
    // 7 truncate
    Signature {
        parameters: &[KNOWN, KEEP],
        payload: 0,
    },
    // 8 delete
    Signature {
        parameters: &[KNOWN, PLACE],
        payload: 0,
    },
    // 9 move quota
    Signature {
        parameters: &[KNOWN, PLACE, AMOUNT],
        payload: 0,
    },
    // 10 status
    Signature {
        parameters: &[KNOWN, PLACE],
        payload: 0,
    },
    // 11 quota
    Signature {
        parameters: &[KNOWN],
        payload: 0,
    },
];

impl Operation {
    /// What the call takes.
    pub(crate) fn signature(self) -> Signature
        ensures parameters { result.parameters.now ≡ parameters_of (operation_number self) }
        ensures payload { result.payload ≡ data_of (operation_number self) }
    {
        CALLS[self as usize - 1]
    }
}
