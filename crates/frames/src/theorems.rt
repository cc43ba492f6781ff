//! Theorems on frames, each the contract of a function, so that the check asks for its proof.
ghost use Rattle.std.specs.Prelude.{◌≡◌, true};
ghost use Rattle.frames.specs.Theorems.{DecodesInRange, ReadsBack, RefusesExactly, OneFrame, FrameEdges};

use crate::decoder::decode;

/// Every argument of a decoded call is in its range.
pub fn decodes_in_range()
    ensures { DecodesInRange }
{}

/// The frame of a call in range reads back as that call.
pub fn reads_back()
    ensures { ReadsBack }
{}

/// The writer refuses exactly the calls out of range and the short buffers, so that each call in range has a frame.
pub fn refuses_exactly()
    ensures { RefusesExactly }
{}

/// Each call has one frame.
pub fn one_frame()
    ensures { OneFrame }
{}

/// The edges of signed amounts and of reads, as the decoder answers them too.
pub fn frame_edges() -> bool
    ensures edges { FrameEdges }
    ensures value { result ≡ true }
{
    decode(&[0x8009_0003, 0x1000_0000, 0x2000_0000, 0x4FFF_FF00], 16).is_ok()
        && decode(&[0x8009_0003, 0x1000_0000, 0x2000_0000, 0x4FFF_FEFF], 16).is_err()
        && decode(&[0x8005_0003, 0x1000_0000, 0x3000_00FF, 0x3000_0001], 16).is_ok()
        && decode(&[0x8005_0003, 0x1000_0000, 0x3000_00FF, 0x3000_0002], 16).is_err()
}
