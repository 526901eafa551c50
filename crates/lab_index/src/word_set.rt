// A set of few numbers, in one word.

ghost use Rattle.std.specs.Prelude.{◌≡◌, ◌<◌, ◌≤◌, ℕ, IfSome, true, false, length, slice_get, slice_set};
ghost use Rattle.lab_index.specs.Numbers.{has, members};

use crate::bits::{WORD_BITS, has_bit, nth_bit, ones, with_bit, without_bit};
use std::marker::Model;

/// A set of numbers below 64.
///
/// Callers see it as a mark for each of the 64 numbers, set for a member. It takes no memory.
#[derive(Debug, Drop)]
pub struct WordSet {
    /// A bit for each number, the lowest first.
    word: u64,
}

impl Model for WordSet {
    ghost use Rattle.lab_index.specs.Numbers.{Marks};
    ghost use Rattle.lab_index.specs.Words.{marks_of};

    ghost Value = { Marks };

    ghost view = { λ s. marks_of s.word };
}

impl WordSet {
    /// The empty set.
    #[tactic(auto, using(crate::proofs::WordSets::word_marks))]
    pub fn new() -> WordSet
        ensures { (n : ℕ) → has result n ≡ false }
    {
        WordSet { word: 0 }
    }

    /// Whether `n` is a member. A number from 64 on is none.
    #[tactic(auto, using(crate::proofs::WordSets::word_marks))]
    pub fn contains(&self, n: u64) -> bool
        ensures { result ≡ has self.now n }
    {
        n < WORD_BITS && has_bit(self.word, n as u32)
    }

    /// How many members there are: 64 at most.
    pub fn count(&self) -> u64
        ensures count { result ≡ length (members self.now) }
        ensures few { result ≤ 64 }
    {
        u64::from(ones(self.word))
    }

    /// The k-th member from 0 in rising order.
    pub fn nth(&self, k: u64) -> Option<u64>
        ensures nth { result ≡ slice_get (members self.now) k }
        ensures below { IfSome result (λ n. n < 64) }
    {
        if k >= u64::from(ones(self.word)) {
            return None;
        }
        Some(u64::from(nth_bit(self.word, k as u32)))
    }

    /// Puts `n` in.
    #[tactic(auto, using(crate::proofs::WordSets::word_marks))]
    pub fn insert(&mut self, n: u64)
        requires { n < 64 }
        ensures member { has self.new n ≡ true }
        ensures set { self.new ≡ slice_set self.old n true }
    {
        self.word = with_bit(self.word, n as u32);
    }

    /// Takes `n` out. What is no member stays out.
    #[tactic(auto, using(crate::proofs::WordSets::word_marks))]
    pub fn remove(&mut self, n: u64)
        ensures { self.new ≡ slice_set self.old n false }
    {
        if n < WORD_BITS {
            self.word = without_bit(self.word, n as u32);
        }
    }
}
