//! Frames, written and read.
use frames::call::Call;
use frames::fault::{Flaw, FrameFault, Reason};
use frames::{decode, encode};

/// A move of one record back out of the directory at place 3.
fn take_one() -> Call<'static> {
    Call::MoveQuota {
        directory: 0,
        entry: 3,
        amount: -1,
    }
}

/// A move of more than 28 bits can hold.
fn take_too_much() -> Call<'static> {
    Call::MoveQuota {
        directory: 0,
        entry: 3,
        amount: i32::MIN,
    }
}

#[test]
fn writes_behind_nothing(rt: HostRuntime) {
    let mut buffer = [7; 5];
    assert_eq!(rt; encode(take_one(), &mut buffer), Ok(4));
    assert_eq!(rt;
        buffer,
        [0x8009_0003, 0x1000_0000, 0x2000_0003, 0x4FFF_FFFF, 7]
    );
}

#[test]
fn leaves_a_short_buffer(rt: HostRuntime) {
    let mut buffer = [7; 3];
    assert_eq!(rt;
        encode(take_one(), &mut buffer),
        Err(Flaw::WrongCount.at(0))
    );
    assert_eq!(rt; buffer, [7; 3]);
}

#[test]
fn values_come_before_the_buffer(rt: HostRuntime) {
    let mut buffer = [7; 3];
    assert_eq!(rt;
        encode(take_too_much(), &mut buffer),
        Err(Flaw::OutOfRange.at(3))
    );
    assert_eq!(rt; buffer, [7; 3]);
}

/// The call that a frame asks for, or why it is denied, with a reply buffer of 16 words.
fn decoded(frame: &[u32]) -> Result<Call<'_>, FrameFault> {
    decode(frame, 16)
}

#[test]
fn denies_the_first_fault(rt: HostRuntime) {
    assert_eq!(rt; decoded(&[]), Err(Flaw::NotACall.at(0)));
    assert_eq!(rt;
        decoded(&[0x800B_0001, 0x1000_000F]),
        Ok(Call::Quota { directory: 15 })
    );
    assert_eq!(rt;
        decoded(&[0x800B_0001, 0x2000_0010]),
        Err(Flaw::WrongKind.at(1))
    );
    assert_eq!(rt;
        decoded(&[0x8009_0003, 0x1000_0000, 0x2000_0000, 0x4FFF_FF00]),
        Ok(Call::MoveQuota {
            directory: 0,
            entry: 0,
            amount: -256,
        })
    );
    assert_eq!(rt;
        decoded(&[0x8009_0003, 0x1000_0000, 0x2000_0000, 0x4FFF_FEFF]),
        Err(Flaw::OutOfRange.at(3))
    );
    assert_eq!(rt;
        decoded(&[0x8005_0003, 0x1000_0000, 0x3000_00FF, 0x3000_0001]),
        Ok(Call::Read {
            segment: 0,
            first: 255,
            count: 1,
        })
    );
    assert_eq!(rt;
        decoded(&[0x8005_0003, 0x1000_0000, 0x3000_00FF, 0x3000_0002]),
        Err(Flaw::OutOfRange.at(3))
    );
}
