//! The layout of a frame's words, by shifts and masks.
ghost use Rattle.std.specs.Prelude.{◌≡◌, ◌^◌, ◌<◌};
ghost use Rattle.frames.specs.Words.{kind_of, value_of, number_in, count_in, signed, unsigned, word_of, head_of};
ghost use Rattle.frames.specs.Operations.{operation_number};

use crate::operation::Operation;

/// The kind of a head.
pub(crate) const HEAD: u32 = 8;

/// The top 4 bits of a word.
pub(crate) fn kind(word: u32) -> u32
    ensures { result ≡ kind_of word }
{
    word >> 28
}

/// The low 28 bits of a word.
pub(crate) fn value(word: u32) -> u32
    ensures { result ≡ value_of word }
{
    word & 0x0FFF_FFFF
}

/// The call that a head names, in the 12 bits below its kind.
pub(crate) fn call_number(head: u32) -> u32
    ensures { result ≡ number_in head }
{
    (head >> 16) & 0xFFF
}

/// How many words follow a head, as its low 16 bits say.
pub(crate) fn word_count(head: u32) -> usize
    ensures { result ≡ count_in head }
{
    (head & 0xFFFF) as usize
}

/// 28 bits as a signed amount, in two's complement.
pub(crate) fn amount(value: u32) -> i32
    requires { value < 2 ^ 28 }
    ensures { result ≡ signed value }
{
    if value < 1 << 27 {
        value as i32
    } else {
        value as i32 - (1 << 28)
    }
}

/// A signed amount in 28 bits, in two's complement. One that they cannot hold becomes 2^27, which no call admits.
pub(crate) fn amount_bits(amount: i32) -> u32
    ensures { result ≡ unsigned amount }
{
    let size = amount.unsigned_abs().min(1 << 27);
    if amount < 0 { (1 << 28) - size } else { size }
}

/// A word of a kind and the low 28 bits of a value.
pub(crate) fn word(kind: u32, value: u32) -> u32
    requires { kind < 16 }
    ensures { result ≡ word_of kind value }
{
    kind << 28 | (value & 0x0FFF_FFFF)
}

/// The head of a call with so many words to follow.
pub(crate) fn head(operation: Operation, count: u32) -> u32
    requires { count < 2 ^ 16 }
    ensures { result ≡ head_of (operation_number operation) count }
{
    word(HEAD, operation.number() << 16 | count)
}
