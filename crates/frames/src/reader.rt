//! Reads a lent frame word by word.
ghost use Rattle.std.specs.Prelude.{◌≡◌, ◌≤◌, length, OnOk};
ghost use Rattle.frames.specs.Decode.{argument};
ghost use Rattle.frames.specs.Readers.{Holding, next, unread, Holds, Moved};
ghost use Rattle.frames.specs.Walks.{Walked};

use crate::fault::{Flaw, FrameFault, Reason};
use crate::table::{Kind, MOST_ARGUMENTS, Parameter};
use crate::word;

/// The value in a word, and its kind, or the flaw of a word of no such kind.
#[derive(Clone, Copy, PartialEq, Eq, Debug)]
pub(crate) struct Argument {
    pub(crate) kind: Result<Kind, Flaw>,
    pub(crate) value: u32,
}

impl From<u32> for Argument {
    ghost from_gives = { Holding };

    fn from(word: u32) -> Argument {
        Argument {
            kind: Kind::try_from(word::kind(word)),
            value: word::value(word),
        }
    }
}

/// A frame that is lent, and the index of the word to read next.
#[derive(Drop)]
pub(crate) struct Reader<'a> {
    frame: &'a [u32],
    at: usize,
}

impl<'a> Reader<'a> {
    /// A reader of the words behind the head.
    pub(crate) fn behind_head(frame: &'a [u32]) -> Reader<'a>
        ensures frame { result.frame.now ≡ frame.now }
        ensures at { result.at ≡ 1 }
    {
        Reader { frame, at: 1 }
    }

    /// The kind and the value in the next word.
    fn next(&mut self) -> Argument
        requires { Holds self.old 1 }
        ensures argument { Holding (next self.old) result }
        ensures moved { Moved self.old self.new 1 }
    {
        let word = self.frame[self.at];
        self.at += 1;
        Argument::from(word)
    }

    /// The next argument's value, where it is of the kind and within the bounds that the call takes there.
    fn argument(&mut self, parameter: &Parameter) -> Result<u32, FrameFault>
        requires { Holds self.old 1 }
        ensures value { result ≡ argument self.old.at parameter.now (next self.old) }
        ensures moved { Moved self.old self.new 1 }
    {
        let place = self.at;
        let Argument { kind, value } = self.next();
        if kind != Ok(parameter.kind) {
            return Err(Flaw::WrongKind.at(place));
        }
        if !parameter.admits(value) {
            return Err(Flaw::OutOfRange.at(place));
        }
        Ok(value)
    }

    /// The values of a call's arguments, from index 0 on, and zeros behind them.
    pub(crate) fn arguments(
        &mut self,
        parameters: &[Parameter],
    ) -> Result<[u32; MOST_ARGUMENTS], FrameFault>
        requires few { length parameters.now ≤ 5 }
        requires there { Holds self.old (length parameters.now) }
        ensures walked { Walked self.old.at parameters.now (unread self.old) result }
        ensures moved { OnOk result (Moved self.old self.new (length parameters.now)) }
    {
        let mut values = [0; MOST_ARGUMENTS];
        for (i, parameter) in parameters.iter().enumerate() {
            values[i] = self.argument(parameter)?;
        }
        Ok(values)
    }

    /// The words that are not read yet.
    pub(crate) fn rest(self) -> &'a [u32]
        requires { Holds self 0 }
        ensures { result.now ≡ unread self.entry }
    {
        &self.frame[self.at..]
    }
}
