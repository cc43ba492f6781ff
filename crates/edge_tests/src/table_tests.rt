//! The memory of a store, made at its edges: no contract says that making it succeeds.
use labels::Label;
use objects::Objects;
use std::test::Fail;
use tables::{Body, Known, KnownTable, Links, Stack, Table};

#[test]
fn counts_down(rt: HostRuntime) -> Result<(), Fail> {
    let mut stack = Stack::counting_down(rt.alloc(), 4, 2)?;
    let first = stack.pop();
    let second = stack.pop();
    assert_eq!(rt; [first, second], [4, 5]);
    Ok(())
}

#[test]
fn makes_known_numbers(rt: HostRuntime) -> Result<(), Fail> {
    let known = KnownTable::new();
    assert_eq!(rt; known.find(0), Known::Means(0));
    assert_eq!(rt; known.find(15), Known::Free);
    Ok(())
}

#[test]
fn makes_links(rt: HostRuntime) -> Result<(), Fail> {
    let links = Links::new();
    assert_eq!(rt; links.find(15), None);
    assert_eq!(rt; links.count(), 0);
    Ok(())
}

#[test]
fn makes_tables_of_any_size(rt: HostRuntime) -> Result<(), Fail> {
    let heap = rt.alloc();
    let small = Table::new(heap, 1, Body::Segment)?;
    let large = Table::new(heap, 257, Body::Segment)?;
    assert_eq!(rt; [small.len(), large.len()], [1, 257]);
    assert!(rt; large.body(0).is_live() && !large.body(256).is_live());
    Ok(())
}

#[test]
fn makes_stores_of_any_size(rt: HostRuntime) -> Result<(), Fail> {
    let root = Label {
        security: 1,
        integrity: 2,
    };
    let _none = Objects::new(rt.alloc(), root, 0)?;
    let _most = Objects::new(rt.alloc(), root, 256)?;
    Ok(())
}
