//! Turns a frame into its call.
ghost use Rattle.std.specs.Prelude.{◌≡◌, ◌^◌, ◌<◌, ◌≤◌, IfOk, slice_index};
ghost use Rattle.frames.specs.declared.operation.Operation.TheVariants.{MoveQuota};
ghost use Rattle.frames.specs.Operations.{operation_number};
ghost use Rattle.frames.specs.Requests.{request, reply_words};
ghost use Rattle.frames.specs.Decode.{call_in, request_of, spelled, past_end, past_room, unless, map_ok, decode};
ghost use Rattle.frames.specs.Encode.{encode};
ghost use Rattle.frames.specs.Ranges.{InRange};

use crate::call::Call;
use crate::fault::{Flaw, FrameFault, Reason};
use crate::operation::Operation;
use crate::reader::Reader;
use crate::table::MOST_ARGUMENTS;
use crate::word;

/// The words of a segment.
const SEGMENT_WORDS: usize = 256;

/// The call that a frame's head names, where as many words follow as the head says and the call takes.
fn named_operation(frame: &[u32]) -> Result<Operation, FrameFault>
    ensures { map_ok operation_number result ≡ call_in frame.now }
{
    let [head, words @ ..] = frame else {
        return Err(Flaw::NotACall.at(0));
    };
    if word::kind(*head) != word::HEAD {
        return Err(Flaw::NotACall.at(0));
    }
    let operation = Operation::try_from(word::call_number(*head)).map_err(|flaw| flaw.at(0))?;
    if word::word_count(*head) != words.len() || !operation.signature().takes(words.len()) {
        return Err(Flaw::WrongCount.at(0));
    }
    Ok(operation)
}

/// A call with its values from index 0 on and its data words.
fn assemble<'a>(operation: Operation, values: [u32; MOST_ARGUMENTS], words: &'a [u32]) -> Call<'a>
    requires amount { operation ≡ MoveQuota → slice_index values 2 < 2 ^ 28 }
    ensures { request result ≡ request_of (operation_number operation) (λ i. slice_index values i) words.now }
{
    match operation {
        Operation::CreateSegment => Call::CreateSegment {
            directory: values[0],
            entry: values[1],
        },
        Operation::CreateDirectory => Call::CreateDirectory {
            directory: values[0],
            entry: values[1],
            security: values[2],
            integrity: values[3],
            grant: values[4],
        },
        Operation::MakeKnown => Call::MakeKnown {
            directory: values[0],
            entry: values[1],
            number: values[2],
        },
        Operation::Terminate => Call::Terminate { number: values[0] },
        Operation::Read => Call::Read {
            segment: values[0],
            first: values[1],
            count: values[2],
        },
        Operation::Write => Call::Write {
            segment: values[0],
            first: values[1],
            words,
        },
        Operation::Truncate => Call::Truncate {
            segment: values[0],
            keep: values[1],
        },
        Operation::Delete => Call::Delete {
            directory: values[0],
            entry: values[1],
        },
        Operation::MoveQuota => Call::MoveQuota {
            directory: values[0],
            entry: values[1],
            amount: word::amount(values[2]),
        },
        Operation::Status => Call::Status {
            directory: values[0],
            entry: values[1],
        },
        Operation::Quota => Call::Quota {
            directory: values[0],
        },
    }
}

/// The call that the words of a frame spell: its head, then its arguments, and what is left as data words.
fn read_call<'a>(frame: &'a [u32]) -> Result<Call<'a>, FrameFault>
    ensures { map_ok request result ≡ spelled frame.now }
{
    let operation = named_operation(frame)?;
    let mut reader = Reader::behind_head(frame);
    let values = reader.arguments(operation.signature().parameters)?;
    Ok(assemble(operation, values, reader.rest()))
}

/// Denies a read or a write that passes the last word of its segment.
pub(crate) fn check_end(call: Call<'_>) -> Result<(), FrameFault>
    ensures { result ≡ unless (past_end (request call.entry)) tt }
{
    match call {
        Call::Read { first, count, .. } if first as usize + count as usize > SEGMENT_WORDS => {
            Err(Flaw::OutOfRange.at(3))
        }
        Call::Write { first, words, .. } if first as usize + words.len() > SEGMENT_WORDS => {
            Err(Flaw::OutOfRange.at(2))
        }
        _ => Ok(()),
    }
}

/// Denies a read of more words than the reply buffer has.
fn check_room(call: Call<'_>, room: usize) -> Result<(), FrameFault>
    ensures { result ≡ unless (past_room (request call.entry) room) tt }
{
    match call {
        Call::Read { count, .. } if count as usize > room => Err(Flaw::OutOfRange.at(3)),
        _ => Ok(()),
    }
}

/// The call that a frame asks for, or why it is denied, with a reply buffer of `room` words. A call comes in range,
/// with room for the words that it reads, and from no other frame.
pub fn decode<'a>(frame: &'a [u32], room: usize) -> Result<Call<'a>, FrameFault>
    ensures value { map_ok request result ≡ decode frame.now room }
    ensures in_range { IfOk result (λ call. InRange (request call) × (reply_words (request call) ≤ room)) }
    ensures own_frame { IfOk result (λ call. frame.now ≡ encode (request call)) }
{
    let call = read_call(frame)?;
    check_end(call)?;
    check_room(call, room)?;
    Ok(call)
}
