//! The order of words that hold a level and a set of categories.
ghost use Rattle.std.specs.Prelude.{◌≡◌, Decides};
ghost use Rattle.labels.specs.PartOrders.{level, categories, subset, Included, dominated, level_category};
ghost use Rattle.labels.specs.Levels.{level_lawful};
ghost use Rattle.std.proofs.Common.{rules};

use crate::dominance::Dominance;
use crate::part_order::PartOrder;

/// Levels and categories: bits 0 to 15 of a word are its categories, bits 16 to 18 its level, and higher bits are zero.
/// A word is below another where its level is no greater and its categories are a subset.
#[derive(Clone, Copy, PartialEq, Eq, Debug)]
pub struct LevelCategory;

/// Bits 0 to 15: one for each category.
const CATEGORY_BITS: u32 = 16;

/// Bits 16 to 18: the level.
const LEVEL_BITS: u32 = 3;

/// The bits of the categories.
const CATEGORY_MASK: u32 = (1 << CATEGORY_BITS) - 1;

/// The bits of the level, once the categories are shifted out.
const LEVEL_MASK: u32 = (1 << LEVEL_BITS) - 1;

/// The level of a word.
#[tactic(auto, using(std::proofs::lemmas::Nat::and_mask))]
fn level(word: u32) -> u32
    ensures { result ≡ level word }
{
    (word >> CATEGORY_BITS) & LEVEL_MASK
}

/// The set of categories of a word.
#[tactic(auto, using(std::proofs::lemmas::Nat::and_mask))]
fn categories(word: u32) -> u32
    ensures { result ≡ categories word }
{
    word & CATEGORY_MASK
}

/// Whether each category of `a` is one of `b`.
#[tactic(auto, using(crate::specs::Subsets::members, crate::specs::Subsets::from_members))]
fn subset(a: u32, b: u32) -> bool
    ensures value { result ≡ subset a b }
    ensures members { Decides result (Included a b) }
{
    a & b == a
}

/// Whether `b` dominates `a`: the level of `a` is no greater, and its categories are a subset.
fn dominated(a: u32, b: u32) -> bool
    ensures { result ≡ dominated a b }
{
    level(a) <= level(b) && subset(categories(a), categories(b))
}

impl Dominance for LevelCategory {
    type Item = u32;

    ghost order = { λ _. level_category };

    ghost low = { Prim.search rules };

    ghost high = { Prim.search rules };

    ghost reflexive = { λ _. level_lawful.reflexive };

    ghost transitive = { λ _. level_lawful.transitive };

    ghost antisymmetric = { Prim.search rules };

    fn valid(&self, word: u32) -> bool {
        word >> (CATEGORY_BITS + LEVEL_BITS) == 0
    }

    fn below(&self, a: u32, b: u32) -> bool {
        self.valid(a) && self.valid(b) && dominated(a, b)
    }
}

impl PartOrder for LevelCategory {
    ghost small = { Prim.search rules };

    ghost lawful = { λ _. level_lawful };
}
