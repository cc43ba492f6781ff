//! Listings, cut into lines.
use listing::splitter::Splitter;
use std::alloc::{AllocError, Global};
use std::test::Fail;

/// How many lines bytes have, and how many of these are readable.
fn lines(heap: Global, bytes: &[u8]) -> Result<(u32, u32), AllocError> {
    let mut splitter = Splitter::new(heap);
    let mut last = 0;
    let mut readable = 0u32;
    for byte in bytes {
        if let Some(line) = splitter.push(heap, *byte)? {
            last = line.number;
            readable = readable.saturating_add(u32::from(line.call.is_some()));
        }
    }
    if let Some(line) = splitter.finish(heap)? {
        last = line.number;
        readable = readable.saturating_add(u32::from(line.call.is_some()));
    }
    Ok((last, readable))
}

#[test]
fn cuts_at_newlines(rt: HostRuntime) -> Result<(), Fail> {
    let heap = rt.alloc();
    assert_eq!(rt; lines(heap, b"")?, (0, 0));
    assert_eq!(rt; lines(heap, b"\n")?, (1, 0));
    assert_eq!(rt; lines(heap, b"0")?, (1, 1));
    assert_eq!(rt; lines(heap, b"0\n")?, (1, 1));
    assert_eq!(rt; lines(heap, b"0\n\n1 0000000F")?, (3, 2));
    assert_eq!(rt; lines(heap, b"0\r\n1 0000000f\n\0\n\xFF")?, (4, 0));
    Ok(())
}

#[test]
fn stops_at_the_64th_line(rt: HostRuntime) -> Result<(), Fail> {
    let heap = rt.alloc();
    assert_eq!(rt; lines(heap, &[b'\n'; 64])?, (64, 0));
    assert_eq!(rt; lines(heap, &[b'\n'; 65])?, (64, 0));
    Ok(())
}

#[test]
fn gives_up_on_long_lines(rt: HostRuntime) -> Result<(), Fail> {
    let heap = rt.alloc();
    let mut line = vec![in heap; b'0']?;
    for _ in 0..22u8 {
        line.extend_from_slice(b" 0000000A")?;
    }
    assert_eq!(rt; lines(heap, line.as_slice())?, (1, 1));
    line.extend_from_slice(b" 0000000A")?;
    assert_eq!(rt; lines(heap, line.as_slice())?, (1, 0));
    Ok(())
}
