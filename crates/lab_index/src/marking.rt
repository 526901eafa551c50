// The set of numbers while many of its marks are changed, one after another.

ghost use Rattle.std.specs.Prelude.{◌≡◌, ◌≢◌, ℕ, ◌^◌, ◌<◌, ◌≤◌, [], length, slice_index, slice_set};
ghost use Rattle.lab_index.specs.Tree.{CountsBits, HasCountsBut};

use crate::bits::{WORD_BITS, with_mark};
use crate::counts::recount;
use crate::set::{NumberSet, behind_zero};
use std::alloc::Global;
use std::marker::Model;
use std::mem::replace;

/// A set of numbers while many of its marks are changed, one after another.
///
/// Callers see it as a mark for each number below the reach, as the set. Inside it a word that changes is counted only
/// once another one is to change. So marks that stand side by side are counted together.
#[derive(Drop)]
pub struct Marking {
    /// Where words and counts are made.
    alloc: Global,
    /// A bit for each number below the reach, the lowest first.
    words: Vec<u64>,
    /// The count of all, and a tree with a leaf for each word.
    counts: Vec<u32>,
    /// How many levels of nodes stand above the leaves.
    height: u32,
    /// Each word before this one is zero, but for the one that changes.
    first: usize,
    /// The word that changes: each other one is counted.
    at: usize,
}

impl Model for Marking {
    ghost use Rattle.lab_index.specs.Numbers.{Marks};
    ghost use Rattle.lab_index.specs.Words.{row_of};
    ghost use Rattle.lab_index.specs.Tree.{IsCountedBut};

    ghost Value = { Marks };

    ghost view = { λ m. row_of m.words.items };

    ghost invariant = { λ m. IsCountedBut m.words.items m.counts.items m.height m.first m.at };
}

impl NumberSet {
    /// The marks of the set, to be changed. The set is empty until they are put back.
    pub fn open(&mut self) -> Marking
        ensures marks { result ≡ self.old }
        ensures empty { self.new ≡ [] }
    {
        let NumberSet {
            alloc,
            words,
            counts,
            height,
            first,
        } = replace(self, NumberSet::new(self.alloc));
        Marking {
            alloc,
            words,
            counts,
            height,
            first,
            at: 0,
        }
    }
}

impl Marking {
    /// Puts `n` in or takes it out.
    #[tactic(auto, using(crate::proofs::Sets::by_words))]
    #[inline(always)]
    pub fn put(&mut self, n: u64, mark: bool)
        requires { n < length self.old }
        ensures { self.new ≡ slice_set self.old n mark }
    {
        let (at, bit) = ((n / WORD_BITS) as usize, (n % WORD_BITS) as u32);
        if at != self.at {
            self.first = settled(&self.words, &mut self.counts, self.first, self.at);
            self.at = at;
        }
        self.words[at] = with_mark(self.words[at], bit, mark);
    }

    /// The set with these marks.
    pub fn close(self) -> NumberSet
        ensures { result ≡ self }
    {
        let Marking {
            alloc,
            words,
            mut counts,
            height,
            first,
            at,
        } = self;
        let first = settled(&words, &mut counts, first, at);
        NumberSet {
            alloc,
            words,
            counts,
            height,
            first,
        }
    }
}

/// Counts the word `at`, in whose place another one was counted. Each word before the one that is returned is zero.
#[tactic(auto, using(crate::proofs::Changing::counted_ones))]
#[inline(never)]
fn settled(words: &[u64], counts: &mut Vec<u32>, first: usize, at: usize) -> usize
    requires small { length words.now ≤ 2 ^ 24 }
    requires bits { HasCountsBut words.now counts.old.items at }
    requires passed { (k : ℕ) → k ≢ at → k < first → slice_index words.now k ≡ 0 }
    ensures bits { CountsBits words.now counts.new.items }
    ensures passed { (k : ℕ) → k < result → slice_index words.now k ≡ 0 }
{
    if at >= words.len() {
        return first;
    }
    recount(words, counts, at);
    if words[at] == 0 {
        behind_zero(words, first)
    } else {
        first.min(at)
    }
}
