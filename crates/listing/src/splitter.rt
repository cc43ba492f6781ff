//! Cuts the bytes of a listing into numbered lines, one byte at a time and in bounded memory.
ghost use Rattle.std.specs.Prelude.{◌≡◌, ℕ, suc, ◌<◌, ◌≤◌, List, [], ◌∷◌, ◌++◌, IfOk, Decides, OnErr, OnOk, nat_le, vec_len};
ghost use Rattle.std.specs.Option.{option_map, option_to_list};

use crate::line::Line;
use crate::parser::{MAX_LINE, parse_line};
use std::alloc::{AllocError, Global};

/// Lines after this one are ignored.
const MAX_LINES: u32 = 64;

/// How many lines have ended, and the start of the one that has begun: at most 201 bytes, as many as tell that it is
/// too long.
#[derive(Drop)]
pub struct Splitter {
    ended: u32,
    begun: Vec<u8>,
    pub ghost bounded: { vec_len begun ≤ 201 },
}

impl Splitter {
    ghost use Rattle.listing.specs.Listings.{numbered, listing};
    ghost use Rattle.listing.specs.Pending.{begun_line, pending};

    /// A splitter that no byte was given yet: what it will give is the whole listing.
    pub fn new(heap: Global) -> Splitter
        ensures whole { (bs : List ℕ) → pending result bs ≡ listing bs }
    {
        Splitter {
            ended: 0,
            begun: Vec::new(heap),
        }
    }

    /// Whether no further line will be given, whatever bytes follow.
    #[tactic(auto, using(crate::proofs::Splits::count_tells_over))]
    pub fn is_over(&self) -> bool
        ensures count { result ≡ nat_le 64 self.now.ended }
        ensures over { Decides result ((bs : List ℕ) → pending self.now bs ≡ []) }
    {
        self.ended >= MAX_LINES
    }

    /// Takes the next byte, and gives the line that it ends. Where memory is wanting the byte is not taken.
    #[tactic(auto, using(crate::proofs::Splits::byte_by_byte))]
    pub fn push(&mut self, heap: Global, byte: u8) -> Result<Option<Line>, AllocError>
        ensures given { IfOk result (λ line. (bs : List ℕ) → pending self.old (byte ∷ bs) ≡ option_to_list (option_map numbered line) ++ pending self.new bs) }
        ensures refused { OnErr result ((bs : List ℕ) → pending self.new bs ≡ pending self.old bs) }
    {
        if self.is_over() {
            return Ok(None);
        }
        if byte == b'\n' {
            return self.end_line(heap).map(Some);
        }
        if self.begun.len() <= MAX_LINE {
            self.begun.push(byte)?;
        }
        Ok(None)
    }

    /// Gives the last line, where it has no newline.
    pub fn finish(mut self, heap: Global) -> Result<Option<Line>, AllocError>
        ensures { IfOk result (λ line. pending self [] ≡ option_to_list (option_map numbered line)) }
    {
        if self.is_over() || self.begun.is_empty() {
            return Ok(None);
        }
        self.end_line(heap).map(Some)
    }

    /// Ends the line that has begun, and gives it. Where memory is wanting nothing changes.
    fn end_line(&mut self, heap: Global) -> Result<Line, AllocError>
        requires { self.old.ended < 64 }
        ensures line { IfOk result (λ line. numbered line ≡ begun_line self.old) }
        ensures ended { OnOk result (self.new.ended ≡ suc self.old.ended) }
        ensures emptied { OnOk result (self.new.begun.items ≡ []) }
        ensures refused { OnErr result (self.new ≡ self.old) }
    {
        let call = parse_line(heap, self.begun.as_slice())?;
        self.ended += 1;
        self.begun.clear();
        Ok(Line {
            number: self.ended,
            call,
        })
    }
}
