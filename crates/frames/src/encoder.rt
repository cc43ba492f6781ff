//! Turns a call into its frame.
ghost use Rattle.std.specs.Prelude.{◌≡◌, ℕ, ◌+◌, ◌^◌, ◌<◌, ◌≤◌, [], length, take, position, not, IfOk, Ok};
ghost use Rattle.std.specs.List.{zip};
ghost use Rattle.frames.specs.Operations.{operation_number};
ghost use Rattle.frames.specs.Table.{within, parameters_of, arity};
ghost use Rattle.frames.specs.Requests.{request, reply_words};
ghost use Rattle.frames.specs.Decode.{unless, decode};
ghost use Rattle.frames.specs.Walks.{TakenApart};
ghost use Rattle.frames.specs.Encode.{argument_words, frame_of, encode, value_fault, refusal, put, buffer_after};

use crate::call::Call;
use crate::decoder::check_end;
use crate::fault::{Flaw, FrameFault, Reason};
use crate::operation::Operation;
use crate::table::{MOST_ARGUMENTS, Parameter};
use crate::word;

/// Puts data words from a place on.
fn put_words(words: &[u32], at: usize, buffer: &mut [u32])
    requires { at + length words.now ≤ length buffer.old }
    ensures { buffer.new ≡ put at words.now buffer.old }
{
    buffer[at..at + words.len()].copy_from_slice(words);
}

/// The index of the first value that is out of its parameter's bounds.
fn first_outside(parameters: &[Parameter], values: &[u32]) -> Option<usize>
    ensures { result ≡ position (λ x. not (within x.0 x.1)) (zip parameters.now values.now) }
{
    parameters
        .iter()
        .zip(values)
        .position(|(parameter, value)| !parameter.admits(*value))
}

/// A call taken apart: which it is, its values from index 0 on with zeros behind them, and its data words.
#[derive(Clone, Copy)]
struct Parts<'a> {
    operation: Operation,
    values: [u32; MOST_ARGUMENTS],
    words: &'a [u32],
}

impl<'a> From<Call<'a>> for Parts<'a> {
    ghost from_gives = { λ c p. TakenApart (operation_number p.operation) p.values p.words.now (request c) };

    fn from(call: Call<'a>) -> Parts<'a> {
        match call {
            Call::CreateSegment { directory, entry } => Parts::without_data(
                Operation::CreateSegment,
                [directory, entry, 0, 0, 0],
            ),
            Call::CreateDirectory {
                directory,
                entry,
                security,
                integrity,
                grant,
            } => Parts::without_data(
                Operation::CreateDirectory,
                [directory, entry, security, integrity, grant],
            ),
            Call::MakeKnown {
                directory,
                entry,
                number,
            } => Parts::without_data(Operation::MakeKnown, [directory, entry, number, 0, 0]),
            Call::Terminate { number } => Parts::without_data(
                Operation::Terminate,
                [number, 0, 0, 0, 0],
            ),
            Call::Read {
                segment,
                first,
                count,
            } => Parts::without_data(Operation::Read, [segment, first, count, 0, 0]),
            Call::Write {
                segment,
                first,
                words,
            } => Parts {
                operation: Operation::Write,
                values: [segment, first, 0, 0, 0],
                words,
            },
            Call::Truncate { segment, keep } => Parts::without_data(
                Operation::Truncate,
                [segment, keep, 0, 0, 0],
            ),
            Call::Delete { directory, entry } => Parts::without_data(
                Operation::Delete,
                [directory, entry, 0, 0, 0],
            ),
            Call::MoveQuota {
                directory,
                entry,
                amount,
            } => Parts::without_data(
                Operation::MoveQuota,
                [directory, entry, word::amount_bits(amount), 0, 0],
            ),
            Call::Status { directory, entry } => Parts::without_data(
                Operation::Status,
                [directory, entry, 0, 0, 0],
            ),
            Call::Quota { directory } => Parts::without_data(
                Operation::Quota,
                [directory, 0, 0, 0, 0],
            ),
        }
    }
}

impl<'a> Parts<'a> {
    /// The parts of a call that takes no data words.
    fn without_data(operation: Operation, values: [u32; MOST_ARGUMENTS]) -> Parts<'a>
        ensures operation { result.operation ≡ operation }
        ensures values { result.values ≡ values }
        ensures words { result.words.now ≡ [] }
    {
        Parts {
            operation,
            values,
            words: &[],
        }
    }

    /// What the call takes as arguments.
    fn parameters(&self) -> &'static [Parameter]
        ensures { result.now ≡ parameters_of (operation_number self.now.operation) }
    {
        self.operation.signature().parameters
    }

    /// How many words the frame has.
    fn frame_length(&self) -> usize
        ensures { result ≡ (1 + arity (operation_number self.now.operation)) + length self.now.words.now }
    {
        1 + self.parameters().len() + self.words.len()
    }

    /// Denies the first value that is out of its range.
    #[tactic(auto, using(crate::proofs::Arguments::fault_at))]
    fn check_values(&self) -> Result<(), FrameFault>
        ensures { result ≡ unless (value_fault 1 (parameters_of (operation_number self.now.operation)) self.now.values) tt }
    {
        match first_outside(self.parameters(), &self.values) {
            Some(i) => Err(Flaw::OutOfRange.at(1 + i)),
            None => Ok(()),
        }
    }

    /// Puts the arguments behind the head.
    fn put_arguments(&self, buffer: &mut [u32])
        requires { 1 + arity (operation_number self.now.operation) ≤ length buffer.old }
        ensures { buffer.new ≡ put 1 (argument_words (parameters_of (operation_number self.now.operation)) self.now.values) buffer.old }
    {
        for (i, (parameter, value)) in self.parameters().iter().zip(&self.values).enumerate() {
            buffer[1 + i] = word::word(parameter.kind.code(), *value);
        }
    }

    /// Puts head, arguments and data words at the buffer's start.
    fn put_frame(&self, buffer: &mut [u32])
        requires count { arity (operation_number self.now.operation) + length self.now.words.now < 2 ^ 16 }
        requires room { (1 + arity (operation_number self.now.operation)) + length self.now.words.now ≤ length buffer.old }
        ensures { let n = operation_number self.now.operation in buffer.new ≡ put 0 (frame_of n (parameters_of n) self.now.values self.now.words.now) buffer.old }
    {
        let arguments = self.parameters().len();
        buffer[0] = word::head(self.operation, (arguments + self.words.len()) as u32);
        self.put_arguments(buffer);
        put_words(self.words, 1 + arguments, buffer);
    }
}

/// Writes a call's frame to the buffer's start and answers its length; what stands behind it is left as it was.
/// Where the call is denied the whole buffer is. What is written reads back as the call.
pub fn encode(call: Call<'_>, buffer: &mut [u32]) -> Result<usize, FrameFault>
    ensures value { result ≡ unless (refusal (request call.entry) (length buffer.old)) (length (encode (request call.entry))) }
    ensures buffer { buffer.new ≡ buffer_after (refusal (request call.entry) (length buffer.old)) (encode (request call.entry)) buffer.old }
    ensures reads_back { IfOk result (λ n. (room : ℕ) → reply_words (request call.entry) ≤ room → decode (take n buffer.new) room ≡ Ok (request call.entry)) }
{
    let parts = Parts::from(call);
    if !parts.operation.signature().takes_data(parts.words.len()) {
        return Err(Flaw::WrongCount.at(0));
    }
    parts.check_values()?;
    check_end(call)?;
    let length = parts.frame_length();
    if buffer.len() < length {
        return Err(Flaw::WrongCount.at(0));
    }
    parts.put_frame(buffer);
    Ok(length)
}
