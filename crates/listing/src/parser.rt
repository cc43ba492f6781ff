//! Reads one line: a decimal digit, then for each word a space and eight capital hexadecimal digits.
ghost use Rattle.std.specs.Prelude.{◌≡◌, ◌≤◌, length, IfOk, vec_items};
ghost use Rattle.std.specs.Option.{option_map};
ghost use Rattle.listing.specs.Lines.{submitted, decimal_digit, hex_digit, hex_from, word_in, words_in, line_in};
ghost use Rattle.listing.specs.Text.{OneLineEach};

use crate::line::Submission;
use std::alloc::{AllocError, Global};

/// A longer line is unreadable.
pub(crate) const MAX_LINE: usize = 200;

/// A space and eight digits.
const WORD_BYTES: usize = 9;

/// The value of a decimal digit.
fn decimal_digit(byte: u8) -> Option<u8>
    ensures { result ≡ decimal_digit byte }
{
    match byte {
        b'0'..=b'9' => Some(byte - b'0'),
        _ => None,
    }
}

/// The value of a capital hexadecimal digit.
fn hex_digit(byte: u8) -> Option<u32>
    ensures { result ≡ hex_digit byte }
{
    match byte {
        b'0'..=b'9' => char::from(byte).to_digit(10),
        b'A'..=b'F' => char::from(byte).to_digit(16),
        _ => None,
    }
}

/// The number that at most eight hexadecimal digits spell.
#[tactic(auto, using(crate::proofs::Digits::seven_digits_are_most))]
fn hex_number(digits: &[u8]) -> Option<u32>
    requires { length digits.now ≤ 8 }
    ensures { result ≡ hex_from 0 digits.now }
{
    let mut number = 0;
    for digit in digits {
        number = number * 16 + hex_digit(*digit)?;
    }
    Some(number)
}

/// The word that a space and eight digits spell.
fn parse_word(piece: &[u8]) -> Option<u32>
    ensures { result ≡ word_in piece.now }
{
    match piece {
        [b' ', digits @ ..] if digits.len() == 8 => hex_number(digits),
        _ => None,
    }
}

/// The words that stand one behind the other, and nothing but words.
#[tactic(auto, using(crate::proofs::Words::word_by_word))]
fn parse_words(heap: Global, bytes: &[u8]) -> Result<Option<Vec<u32>>, AllocError>
    ensures { IfOk result (λ words. option_map vec_items words ≡ words_in bytes.now) }
{
    let mut words = Vec::new(heap);
    for piece in bytes.chunks(WORD_BYTES) {
        let Some(word) = parse_word(piece) else {
            return Ok(None);
        };
        words.push(word)?;
    }
    Ok(Some(words))
}

/// The call that a line without its newline says, or `None` where it is unreadable. A line is readable exactly
/// where it is the text of a call of at most 22 words, and then it says that call.
#[tactic(auto, using(crate::proofs::Texts::one_line_each))]
pub fn parse_line(heap: Global, bytes: &[u8]) -> Result<Option<Submission>, AllocError>
    ensures value { IfOk result (λ call. option_map submitted call ≡ line_in bytes.now) }
    ensures text { OneLineEach }
{
    if bytes.len() > MAX_LINE {
        return Ok(None);
    }
    let [first, rest @ ..] = bytes else {
        return Ok(None);
    };
    let Some(process) = decimal_digit(*first) else {
        return Ok(None);
    };
    let frame = parse_words(heap, rest)?;
    Ok(frame.map(|frame| Submission { process, frame }))
}
