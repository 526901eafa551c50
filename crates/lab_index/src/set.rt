// The set of numbers, over its words and their tree of counts.

ghost use Rattle.std.specs.Prelude.{◌≡◌, ℕ, ◌+◌, ◌*◌, ◌<◌, ◌≤◌, [], true, false, not, IsOk, OnErr, OnOk};
ghost use Rattle.std.specs.Prelude.{length, slice_get, slice_index, slice_set};
ghost use Rattle.lab_index.specs.Numbers.{KeepsMembers, has, members};

use crate::bits::{WORD_BITS, has_bit, nth_bit, with_bit, without_bit};
use crate::counts::{leaf_of, put_emptier, put_fuller, tree_of};
use crate::growth::{height_for, widened};
use lab_sector::NoMemory;
use std::alloc::Global;
use std::marker::Model;

/// A set of numbers below a reach, that tells its k-th member at once.
///
/// Callers see it as a mark for each number below the reach, set for a member. Inside it are words
/// of 64 bits, and above them a tree of counts. It takes memory where the reach grows, and nowhere
/// else.
#[derive(Drop)]
pub struct NumberSet {
    /// Where words and counts are made.
    pub(crate) alloc: Global,
    /// A bit for each number below the reach, the lowest first.
    pub(crate) words: Vec<u64>,
    /// The count of all, and a tree with a leaf for each word.
    pub(crate) counts: Vec<u32>,
    /// How many levels of nodes stand above the leaves.
    pub(crate) height: u32,
    /// Each word before this one is zero, so the k-th member is looked for from here on.
    pub(crate) first: usize,
}

impl Model for NumberSet {
    ghost use Rattle.lab_index.specs.Numbers.{Marks};
    ghost use Rattle.lab_index.specs.Words.{row_of};
    ghost use Rattle.lab_index.specs.Tree.{IsCounted};

    ghost Value = { Marks };

    ghost view = { λ s. row_of s.words.items };

    ghost invariant = { λ s. IsCounted s.words.items s.counts.items s.height s.first };
}

impl NumberSet {
    /// The empty set, with reach 0. It takes no memory.
    pub fn new(alloc: Global) -> NumberSet
        ensures { result ≡ [] }
    {
        NumberSet {
            alloc,
            words: Vec::new(alloc),
            counts: Vec::new(alloc),
            height: 0,
            first: 0,
        }
    }

    /// The number below which all members are, until the reach grows.
    #[tactic(auto, using(crate::proofs::Sets::by_words))]
    pub fn reach(&self) -> u64
        ensures { result ≡ length self.now }
    {
        self.words.len() as u64 * WORD_BITS
    }

    /// Makes the reach at least `reach`. A growth at least doubles it. One past 2^30 numbers is refused as want of
    /// memory is.
    pub fn reserve(&mut self, reach: u64) -> Result<(), NoMemory>
        ensures members { KeepsMembers self.old self.new }
        ensures ok { OnOk result (reach ≤ length self.new) }
        ensures doubled { OnOk result
            (length self.old < reach → 2 * length self.old ≤ length self.new) }
        ensures err { OnErr result (self.new ≡ self.old) }
        // A reach that is there is never refused, and nothing changes.
        ensures succeeds { reach ≤ length self.old → IsOk result }
        ensures still { reach ≤ length self.old → self.new ≡ self.old }
    {
        if reach <= self.reach() {
            return Ok(());
        }
        let height = height_for(reach)?;
        let words = widened(self.alloc, &self.words, 1 << height)?;
        let counts = tree_of(self.alloc, &words)?;
        self.words = words;
        self.counts = counts;
        self.height = height;
        Ok(())
    }

    /// Whether `n` is a member.
    #[tactic(auto, using(crate::proofs::Sets::by_words))]
    pub fn contains(&self, n: u64) -> bool
        ensures { result ≡ has self.now n }
    {
        if n >= self.reach() {
            return false;
        }
        has_bit(self.words[(n / WORD_BITS) as usize], (n % WORD_BITS) as u32)
    }

    /// Puts `n` in, and says whether it was missing. It takes no memory.
    #[tactic(auto, using(crate::proofs::Sets::by_words))]
    pub fn insert(&mut self, n: u64) -> bool
        requires { n < length self.old }
        ensures missing { result ≡ not (has self.old n) }
        ensures set { self.new ≡ slice_set self.old n true }
    {
        let (at, bit) = ((n / WORD_BITS) as usize, (n % WORD_BITS) as u32);
        let word = self.words[at];
        if has_bit(word, bit) {
            return false;
        }
        let more = with_bit(word, bit);
        put_fuller(&mut self.words, &mut self.counts, at, more);
        self.first = self.first.min(at);
        true
    }

    /// Takes `n` out, and says whether it was there. What is no member stays out.
    #[tactic(auto, using(crate::proofs::Sets::by_words))]
    pub fn remove(&mut self, n: u64) -> bool
        ensures found { result ≡ has self.old n }
        ensures clear { self.new ≡ slice_set self.old n false }
    {
        if n >= self.reach() {
            return false;
        }
        let (at, bit) = ((n / WORD_BITS) as usize, (n % WORD_BITS) as u32);
        let word = self.words[at];
        if !has_bit(word, bit) {
            return false;
        }
        let less = without_bit(word, bit);
        put_emptier(&mut self.words, &mut self.counts, at, less);
        self.first = behind_zero(&self.words, self.first);
        true
    }

    /// How many members there are.
    pub fn count(&self) -> u64
        ensures { result ≡ length (members self.now) }
    {
        if self.words.is_empty() {
            return 0;
        }
        u64::from(self.counts[0])
    }

    /// The k-th member from 0 in rising order.
    pub fn nth(&self, k: u64) -> Option<u64>
        ensures { result ≡ slice_get (members self.now) k }
    {
        if k >= self.count() {
            return None;
        }
        let (at, rest) = leaf_of(&self.counts, self.height, self.first, k as u32);
        Some(at as u64 * WORD_BITS + u64::from(nth_bit(self.words[at], rest)))
    }

    /// The smallest member.
    pub fn first(&self) -> Option<u64>
        ensures { result ≡ slice_get (members self.now) 0 }
    {
        self.nth(0)
    }
}

/// The same place, or the next one where the word there is zero. A set whose low members go is followed one step a call.
pub(crate) fn behind_zero(words: &[u64], first: usize) -> usize
    requires { (k : ℕ) → k < first → slice_index words.now k ≡ 0 }
    ensures passed { (k : ℕ) → k < result → slice_index words.now k ≡ 0 }
    ensures next { first < length words.now → slice_index words.now first ≡ 0
        → result ≡ first + 1 }
{
    if first < words.len() && words[first] == 0 {
        first + 1
    } else {
        first
    }
}
