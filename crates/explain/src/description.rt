//! Lines of a listing, calls and denied frames in words.
use frames::call::Call;
use frames::decode;
use frames::fault::{Flaw, FrameFault, Reason};
use listing::line::{Line, Submission};
use std::fmt;

/// The reply buffer that a caller is taken to have: as long as the longest read.
const REPLY_WORDS: usize = 16;

/// A line by its number, with the call that it asks for, or why there is none.
#[derive(Drop)]
pub(crate) struct Explained<'a>(pub(crate) &'a Line);

impl fmt::Display for Explained<'_> {
    fn fmt<W: fmt::Write>(&self, f: &mut fmt::Formatter<W>) -> fmt::Result {
        let Line { number, call } = self.0;
        let Some(Submission { process, frame }) = call else {
            return write!(f, "{number} unreadable");
        };
        write!(f, "{number} process {process}: ")?;
        match decode(frame.as_slice(), REPLY_WORDS) {
            Ok(call) => Described(call).fmt(f),
            Err(fault) => Denied(fault).fmt(f),
        }
    }
}

/// A call by its name, with its arguments.
#[derive(Drop)]
struct Described<'a>(Call<'a>);

impl fmt::Display for Described<'_> {
    fn fmt<W: fmt::Write>(&self, f: &mut fmt::Formatter<W>) -> fmt::Result {
        match self.0 {
            Call::CreateSegment { directory, entry } => {
                write!(f, "create segment d={directory} e={entry}")
            }
            Call::CreateDirectory {
                directory,
                entry,
                security,
                integrity,
                grant,
            } => write!(
                f,
                "create directory d={directory} e={entry} \
                 security={security:#x} integrity={integrity:#x} grant={grant}"
            ),
            Call::MakeKnown {
                directory,
                entry,
                number,
            } => write!(f, "make known d={directory} e={entry} n={number}"),
            Call::Terminate { number } => write!(f, "terminate n={number}"),
            Call::Read {
                segment,
                first,
                count,
            } => write!(f, "read s={segment} first={first} count={count}"),
            Call::Write {
                segment,
                first,
                words,
            } => write!(f, "write s={segment} first={first} data={}", Words(words)),
            Call::Truncate { segment, keep } => write!(f, "truncate s={segment} keep={keep}"),
            Call::Delete { directory, entry } => write!(f, "delete d={directory} e={entry}"),
            Call::MoveQuota {
                directory,
                entry,
                amount,
            } => write!(f, "move quota d={directory} e={entry} amount={amount}"),
            Call::Status { directory, entry } => write!(f, "status d={directory} e={entry}"),
            Call::Quota { directory } => write!(f, "quota d={directory}"),
        }
    }
}

/// Words as eight digits each, with commas between them.
#[derive(Drop)]
struct Words<'a>(&'a [u32]);

impl fmt::Display for Words<'_> {
    fn fmt<W: fmt::Write>(&self, f: &mut fmt::Formatter<W>) -> fmt::Result {
        let [first, rest @ ..] = self.0 else {
            return Ok(());
        };
        write!(f, "{first:08X}")?;
        for word in rest {
            write!(f, ",{word:08X}")?;
        }
        Ok(())
    }
}

/// A frame's denial: number, layer and place, and what is wrong.
#[derive(Drop)]
struct Denied(FrameFault);

impl fmt::Display for Denied {
    fn fmt<W: fmt::Write>(&self, f: &mut fmt::Formatter<W>) -> fmt::Result {
        let FrameFault { reason, place } = self.0;
        let number = reason.number();
        let layer = self.0.layer();
        let meaning = match reason {
            Flaw::NotAdmitted => "the process is not admitted",
            Flaw::NotACall => "no head of a call",
            Flaw::WrongCount => "wrong count of words",
            Flaw::WrongKind => "argument of a wrong kind",
            Flaw::OutOfRange => "value out of range",
        };
        write!(
            f,
            "denied {number}, layer {layer}, place {place}: {meaning}"
        )
    }
}
