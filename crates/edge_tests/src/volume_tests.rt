//! Volumes, written and read at their edges.
use std::alloc::{AllocError, Global};
use std::test::Fail;
use volumes::{Joined, MAX_PAGES, PAGE_WORDS, Plain, Volume};

/// A plain volume over so many words, each of this value.
fn plain(heap: Global, words: usize, value: u32) -> Result<Plain, AllocError> {
    Ok(Plain::new(vec![in heap; value; words]?))
}

/// Writes 7 to a word: whether it was written, and what is read back.
fn write_seven<V: Volume>(volume: &mut V, page: usize, word: usize) -> (bool, Option<u32>) {
    let written = volume.write(page, word, 7);
    (written, volume.read(page, word))
}

/// How many of the words handed back are 7, and how many are not.
fn sevens(volume: Plain) -> (usize, usize) {
    let words = volume.into_words();
    let sevens = words.iter().filter(|word| **word == 7).count();
    (sevens, words.len().saturating_sub(sevens))
}

#[test]
fn converts_both_ways(rt: HostRuntime) -> Result<(), Fail> {
    let mut volume = Plain::from(vec![in rt.alloc(); 5u32; 20]?);
    assert_eq!(rt; write_seven(&mut volume, 0, 15), (true, Some(7)));
    let words: Vec<u32> = volume.into();
    assert_eq!(rt; words.len(), 20);
    assert_eq!(rt; [words.get(15), words.get(19)], [Some(&7), Some(&5)]);
    Ok(())
}

#[test]
fn has_no_page(rt: HostRuntime) -> Result<(), Fail> {
    let mut empty = plain(rt.alloc(), 0, 5)?;
    let mut short = plain(rt.alloc(), 15, 5)?;
    assert_eq!(rt; [empty.pages(), short.pages()], [0, 0]);
    let answers = [write_seven(&mut empty, 0, 0), write_seven(&mut short, 0, 0)];
    assert_eq!(rt; answers, [(false, None); 2]);
    assert_eq!(rt; sevens(short), (0, 15));
    Ok(())
}

#[test]
fn leaves_part_page(rt: HostRuntime) -> Result<(), Fail> {
    let mut volume = plain(rt.alloc(), 40, 5)?;
    assert_eq!(rt; volume.pages(), 2);
    let answers = [
        write_seven(&mut volume, 1, 15),
        write_seven(&mut volume, 2, 0),
    ];
    assert_eq!(rt; answers, [(true, Some(7)), (false, None)]);
    assert_eq!(rt; sevens(volume), (1, 39));
    Ok(())
}

#[test]
fn answers_no_outside(rt: HostRuntime) -> Result<(), Fail> {
    let mut volume = plain(rt.alloc(), 32, 5)?;
    let answers = [
        write_seven(&mut volume, 0, 16),
        write_seven(&mut volume, 2, 0),
        write_seven(&mut volume, 0, usize::MAX),
        write_seven(&mut volume, usize::MAX, 0),
    ];
    assert_eq!(rt; answers, [(false, None); 4]);
    assert_eq!(rt; sevens(volume), (0, 32));
    Ok(())
}

#[test]
fn has_most_pages(rt: HostRuntime) -> Result<(), Fail> {
    let mut volume = plain(rt.alloc(), MAX_PAGES * PAGE_WORDS, 5)?;
    assert_eq!(rt; volume.pages(), MAX_PAGES);
    let answers = [
        write_seven(&mut volume, MAX_PAGES - 1, 15),
        write_seven(&mut volume, MAX_PAGES, 0),
    ];
    assert_eq!(rt; answers, [(true, Some(7)), (false, None)]);
    Ok(())
}

#[test]
fn leaves_page_past_most(rt: HostRuntime) -> Result<(), Fail> {
    let mut volume = plain(rt.alloc(), (MAX_PAGES + 1) * PAGE_WORDS, 5)?;
    assert_eq!(rt; volume.pages(), MAX_PAGES);
    assert_eq!(rt; write_seven(&mut volume, MAX_PAGES, 0), (false, None));
    assert_eq!(rt; sevens(volume), (0, (MAX_PAGES + 1) * PAGE_WORDS));
    Ok(())
}

#[test]
fn second_follows_first(rt: HostRuntime) -> Result<(), Fail> {
    let mut volume = Joined {
        first: plain(rt.alloc(), 20, 1)?,
        second: plain(rt.alloc(), 32, 2)?,
    };
    assert_eq!(rt; volume.pages(), 3);
    assert_eq!(rt; [volume.read(0, 15), volume.read(1, 0)], [Some(1), Some(2)]);
    let answers = [
        write_seven(&mut volume, 0, 15),
        write_seven(&mut volume, 1, 0),
        write_seven(&mut volume, 0, 16),
        write_seven(&mut volume, 3, 0),
    ];
    assert_eq!(rt;
        answers,
        [
            (true, Some(7)),
            (true, Some(7)),
            (false, None),
            (false, None),
        ]
    );
    let Joined { first, second } = volume;
    assert_eq!(rt; [first.read(0, 15), second.read(0, 0)], [Some(7); 2]);
    assert_eq!(rt; [sevens(first), sevens(second)], [(1, 19), (1, 31)]);
    Ok(())
}

#[test]
fn joins_nest(rt: HostRuntime) -> Result<(), Fail> {
    let mut left = Joined {
        first: Joined {
            first: plain(rt.alloc(), 16, 1)?,
            second: plain(rt.alloc(), 16, 2)?,
        },
        second: plain(rt.alloc(), 16, 3)?,
    };
    let mut right = Joined {
        first: plain(rt.alloc(), 16, 1)?,
        second: Joined {
            first: plain(rt.alloc(), 16, 2)?,
            second: plain(rt.alloc(), 16, 3)?,
        },
    };
    let answers = [
        write_seven(&mut left, 2, 15),
        write_seven(&mut right, 2, 15),
    ];
    assert_eq!(rt; answers, [(true, Some(7)); 2]);
    for page in 0..4usize {
        for word in 0..17usize {
            assert_eq!(rt; left.read(page, word), right.read(page, word));
        }
    }
    assert_eq!(rt; right.second.second.read(0, 15), Some(7));
    Ok(())
}

#[test]
fn join_is_cut(rt: HostRuntime) -> Result<(), Fail> {
    let mut volume = Joined {
        first: plain(rt.alloc(), (MAX_PAGES - 1) * PAGE_WORDS, 1)?,
        second: plain(rt.alloc(), 2 * PAGE_WORDS, 2)?,
    };
    assert_eq!(rt; volume.pages(), MAX_PAGES);
    let answers = [
        write_seven(&mut volume, MAX_PAGES - 1, 15),
        write_seven(&mut volume, MAX_PAGES, 0),
    ];
    assert_eq!(rt; answers, [(true, Some(7)), (false, None)]);
    let Joined { first, second } = volume;
    assert_eq!(rt; first.read(MAX_PAGES - 2, 15), Some(1));
    assert_eq!(rt; sevens(second), (1, 31));
    Ok(())
}
