// The bits of a word of 64, counted from the lowest.

ghost use Rattle.std.specs.Prelude.{◌≡◌, ◌∷◌, ◌<◌, ◌≤◌, true, false, length, take, slice_set};
ghost use Rattle.std.specs.Prelude.{count_ones};
ghost use Rattle.lab_index.specs.Numbers.{has, members};
ghost use Rattle.lab_index.specs.Words.{marks_of, count_of};

/// How many bits a word has.
pub(crate) const WORD_BITS: u64 = 64;

/// Fewer bits than these are cleared one after another in less time than six halvings take.
const FEW_BITS: u32 = 16;

/// Whether the bit `at` is set.
#[tactic(auto, using(crate::proofs::Rulesets::has_bit))]
pub(crate) fn has_bit(word: u64, at: u32) -> bool
    requires { at < 64 }
    ensures { result ≡ has (marks_of word) at }
{
    (word >> at) & 1 == 1
}

/// The word with the bit `at` set.
pub(crate) fn with_bit(word: u64, at: u32) -> u64
    requires { at < 64 }
    ensures { marks_of result ≡ slice_set (marks_of word) at true }
{
    word | (1 << at)
}

/// The word with the bit `at` clear.
pub(crate) fn without_bit(word: u64, at: u32) -> u64
    requires { at < 64 }
    ensures { marks_of result ≡ slice_set (marks_of word) at false }
{
    word & !(1 << at)
}

/// The word with the bit `at` set or clear.
#[inline(always)]
pub(crate) fn with_mark(word: u64, at: u32, mark: bool) -> u64
    requires { at < 64 }
    ensures { marks_of result ≡ slice_set (marks_of word) at mark }
{
    if mark {
        with_bit(word, at)
    } else {
        without_bit(word, at)
    }
}

/// How many bits are set: as many as the word has members.
pub(crate) fn ones(word: u64) -> u32
    ensures ones { result ≡ count_ones word }
    ensures members { result ≡ length (members (marks_of word)) }
    ensures few { result ≤ 64 }
{
    word.count_ones()
}

/// How many of the bits below `at` are set.
fn ones_below(word: u64, at: u32) -> u32
    requires { at < 64 }
    ensures { result ≡ count_of (take at (marks_of word)) }
{
    (word & ((1 << at) - 1)).count_ones()
}

/// The place of the lowest bit that is set.
fn lowest_bit(word: u64) -> u32
    requires { 0 < word }
    ensures inside { result < 64 }
    ensures members { members (marks_of word)
        ≡ result ∷ members (slice_set (marks_of word) result false) }
{
    word.trailing_zeros()
}

/// The place of the k-th bit that is set, from 0.
pub(crate) fn nth_bit(word: u64, k: u32) -> u32
    requires { k < count_ones word }
    ensures inside { result < 64 }
    ensures set { has (marks_of word) result ≡ true }
    ensures rank { count_of (take result (marks_of word)) ≡ k }
{
    if k < FEW_BITS {
        nth_by_clearing(word, k)
    } else {
        nth_by_halving(word, k)
    }
}

/// The place of the k-th bit that is set, by clearing those below it one after another.
#[tactic(auto, using(crate::proofs::Rulesets::nth_by_clearing))]
fn nth_by_clearing(word: u64, k: u32) -> u32
    requires { k < count_ones word }
    ensures inside { result < 64 }
    ensures set { has (marks_of word) result ≡ true }
    ensures rank { count_of (take result (marks_of word)) ≡ k }
{
    let (mut rest, mut left) = (word, k);
    while left > 0 {
        rest = without_bit(rest, lowest_bit(rest));
        left -= 1;
    }
    lowest_bit(rest)
}

/// The place of the k-th bit that is set, by counting the bits below the middle of what is left, six times.
fn nth_by_halving(word: u64, k: u32) -> u32
    requires { k < count_ones word }
    ensures inside { result < 64 }
    ensures set { has (marks_of word) result ≡ true }
    ensures rank { count_of (take result (marks_of word)) ≡ k }
{
    let mut low = 0;
    let mut level = 6u32;
    while level > 0 {
        level -= 1;
        let middle = low + (1 << level);
        if ones_below(word, middle) <= k {
            low = middle;
        }
    }
    low
}
