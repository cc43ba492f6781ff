//! Words under part orders, and labels under two of them.
use label_clients::{both_ways, chained};
use labels::{Dominance, Label, LabelOrder, LevelCategory, Reversed, Single, level_edges};

#[test]
fn orders_levels_at_the_edges(rt: HostRuntime) {
    assert!(rt; level_edges());
    assert!(rt; LevelCategory.below(0x00003, 0x10007) && !LevelCategory.below(0x10003, 0x10001));
    assert!(rt; LevelCategory.valid(0x7FFFF) && !LevelCategory.valid(0x80000));
    assert!(rt; LevelCategory.below(0x7FFFF, 0x7FFFF));
    assert!(rt; !LevelCategory.below(0, 0x80000) && !LevelCategory.below(0x80000, 0x80000));
    assert!(rt; !LevelCategory.below(0x20000, 0x1FFFF) && !LevelCategory.below(0x1FFFF, 0x20000));
}

#[test]
fn reverses_any_order(rt: HostRuntime) {
    let reversed = Reversed(LevelCategory);
    assert!(rt; reversed.below(0x10007, 0x00003) && !reversed.below(0x00003, 0x10007));
    assert!(rt; reversed.below(0x7FFFF, 0x7FFFF) && !reversed.valid(0x80000));
    assert!(rt; Reversed(reversed).below(0x00003, 0x10007));
}

#[test]
fn has_one_word(rt: HostRuntime) {
    assert!(rt; Single.valid(0) && Single.below(0, 0));
    assert!(rt;
        !Single.valid(1) && !Single.below(0, 1) && !Single.below(1, 0) && !Single.below(1, 1)
    );
}

/// A label of two words.
fn label(security: u32, integrity: u32) -> Label {
    Label {
        security,
        integrity,
    }
}

#[test]
fn orders_labels_by_both_words(rt: HostRuntime) {
    let order = LabelOrder {
        security: LevelCategory,
        integrity: Reversed(LevelCategory),
    };
    assert!(rt; order.below(label(0, 0x10001), label(0x10000, 1)));
    assert!(rt; !order.below(label(0x10000, 1), label(0, 0x10001)));
    assert!(rt; !order.incomparable(label(0, 0), label(0, 0x10000)));
    assert!(rt; order.incomparable(label(0x10000, 0), label(0x10001, 1)));
    assert!(rt; order.incomparable(label(1, 0), label(2, 0)));
}

#[test]
fn asks_for_two_valid_words(rt: HostRuntime) {
    let order = LabelOrder {
        security: LevelCategory,
        integrity: Single,
    };
    assert!(rt; order.valid(label(0x7FFFF, 0)) && order.below(label(0, 0), label(0x7FFFF, 0)));
    assert!(rt; !order.valid(label(0x80000, 0)) && !order.valid(label(0, 1)));
    assert!(rt; order.incomparable(label(0, 1), label(0, 1)));
}

#[test]
fn compares_labels_by_both_words(rt: HostRuntime) {
    assert_eq!(rt; label(3, 4), label(3, 4));
    assert!(rt; label(3, 4) != label(4, 3));
}

#[test]
fn asks_words_and_labels_alike(rt: HostRuntime) {
    assert!(rt; both_ways(&LevelCategory, 0x10003, 0x10003));
    assert!(rt; !both_ways(&LevelCategory, 0x10001, 0x10003));
    assert!(rt; !both_ways(&LevelCategory, 0x80000, 0x80000));
    assert!(rt; chained(&LevelCategory, 0x00001, 0x10001, 0x10003));
    assert!(rt; !chained(&LevelCategory, 0x00001, 0x10003, 0x10001));
    let order = LabelOrder {
        security: LevelCategory,
        integrity: Reversed(LevelCategory),
    };
    assert!(rt; both_ways(&order, label(1, 2), label(1, 2)));
    assert!(rt; !both_ways(&order, label(0, 2), label(1, 2)));
    assert!(rt; !both_ways(&order, label(1, 0x80000), label(1, 0x80000)));
    assert!(rt; chained(&order, label(0, 3), label(1, 2), label(3, 0)));
    assert!(rt; !chained(&order, label(0, 3), label(3, 0), label(1, 2)));
}
