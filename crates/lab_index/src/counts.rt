// A tree of counts over the words: the second half of the list are its leaves, one for each word, and the node j
// counts the nodes 16j to 16j + 15. So a count changes few nodes, and those that are looked at stand side by side. At 0
// is the count of all.

ghost use Rattle.std.specs.Prelude.{◌≡◌, ◌+◌, ◌-◌, ◌*◌, ◌/◌, ◌^◌, ◌<◌, ◌≤◌, IfOk, length, take, drop, sum};
ghost use Rattle.std.specs.Prelude.{count_ones, slice_index, slice_set};
ghost use Rattle.lab_index.specs.Tree.{AddsUp, CountsBits, HasCountsBut};

use crate::bits::ones;
use lab_sector::NoMemory;
use std::alloc::Global;

/// The tree whose leaves are the counts of the words' bits.
pub(crate) fn tree_of(alloc: Global, words: &[u64]) -> Result<Vec<u32>, NoMemory>
    requires { length words.now ≤ 2 ^ 24 }
    ensures { IfOk result (λ counts. CountsBits words.now counts.items) }
{
    let mut counts = Vec::new(alloc);
    counts.resize(2 * words.len(), 0)?;
    for (at, word) in words.iter().enumerate() {
        raise(&mut counts, words.len(), at, word.count_ones());
    }
    Ok(counts)
}

/// Raises the leaf `at`, and the nodes above it by as much.
fn raise(counts: &mut [u32], leaves: usize, at: usize, more: u32)
    requires small { leaves ≤ 2 ^ 24 }
    requires inside { at < leaves }
    requires few { slice_index counts.old (leaves + at) + more ≤ 64 }
    requires tree { AddsUp leaves counts.old }
    ensures tree { AddsUp leaves counts.new }
    ensures leaves { drop leaves counts.new
        ≡ slice_set (drop leaves counts.old) at (slice_index counts.old (leaves + at) + more) }
{
    counts[leaves + at] += more;
    counts[0] += more;
    let mut node = (leaves + at) / 16;
    while node > 0 {
        counts[node] += more;
        node /= 16;
    }
}

/// Lowers the leaf `at`, and the nodes above it by as much.
fn lower(counts: &mut [u32], leaves: usize, at: usize, less: u32)
    requires small { leaves ≤ 2 ^ 24 }
    requires inside { at < leaves }
    requires some { less ≤ slice_index counts.old (leaves + at) }
    requires tree { AddsUp leaves counts.old }
    ensures tree { AddsUp leaves counts.new }
    ensures leaves { drop leaves counts.new
        ≡ slice_set (drop leaves counts.old) at (slice_index counts.old (leaves + at) - less) }
{
    counts[leaves + at] -= less;
    counts[0] -= less;
    let mut node = (leaves + at) / 16;
    while node > 0 {
        counts[node] -= less;
        node /= 16;
    }
}

/// Replaces the word `at` by one that has a bit more.
pub(crate) fn put_fuller(words: &mut Vec<u64>, counts: &mut Vec<u32>, at: usize, word: u64)
    requires small { length words.old.items ≤ 2 ^ 24 }
    requires inside { at < length words.old.items }
    requires more { count_ones word ≡ count_ones (slice_index words.old.items at) + 1 }
    requires bits { CountsBits words.old.items counts.old.items }
    ensures word { words.new.items ≡ slice_set words.old.items at word }
    ensures bits { CountsBits words.new.items counts.new.items }
{
    words[at] = word;
    raise(counts, words.len(), at, 1);
}

/// Replaces the word `at` by one that has a bit less.
pub(crate) fn put_emptier(words: &mut Vec<u64>, counts: &mut Vec<u32>, at: usize, word: u64)
    requires small { length words.old.items ≤ 2 ^ 24 }
    requires inside { at < length words.old.items }
    requires less { count_ones word + 1 ≡ count_ones (slice_index words.old.items at) }
    requires bits { CountsBits words.old.items counts.old.items }
    ensures word { words.new.items ≡ slice_set words.old.items at word }
    ensures bits { CountsBits words.new.items counts.new.items }
{
    words[at] = word;
    lower(counts, words.len(), at, 1);
}

/// Puts a count into the leaf `at`, and changes the nodes above it by as much.
fn put_count(counts: &mut [u32], leaves: usize, at: usize, count: u32)
    requires small { leaves ≤ 2 ^ 24 }
    requires inside { at < leaves }
    requires few { count ≤ 64 }
    requires tree { AddsUp leaves counts.old }
    ensures tree { AddsUp leaves counts.new }
    ensures leaves { drop leaves counts.new ≡ slice_set (drop leaves counts.old) at count }
{
    let before = counts[leaves + at];
    if before <= count {
        raise(counts, leaves, at, count - before);
    } else {
        lower(counts, leaves, at, before - count);
    }
}

/// Counts the word `at`, in whose place another one was counted.
pub(crate) fn recount(words: &[u64], counts: &mut Vec<u32>, at: usize)
    requires small { length words.now ≤ 2 ^ 24 }
    requires inside { at < length words.now }
    requires bits { HasCountsBut words.now counts.old.items at }
    ensures { CountsBits words.now counts.new.items }
{
    put_count(counts, words.len(), at, ones(words[at]));
}

/// The leaf in which the k-th of all things counted stands, and its rank there. Before the leaf `first` there are none, so
/// the way goes up from it until more than k are counted, and then down: where all stand close together it is short.
pub(crate) fn leaf_of(counts: &[u32], height: u32, first: usize, k: u32) -> (usize, u32)
    requires tree { AddsUp (2 ^ height) counts.now }
    requires short { height ≤ 24 }
    requires passed { sum (take first (drop (2 ^ height) counts.now)) ≡ 0 }
    requires below { k < slice_index counts.now 0 }
    ensures inside { result.0 < 2 ^ height }
    ensures rank { sum (take result.0 (drop (2 ^ height) counts.now)) + result.1 ≡ k }
    ensures rest { result.1 < slice_index (drop (2 ^ height) counts.now) result.0 }
{
    let leaves = 1 << height;
    let (start, mut step) = climb(counts, leaves + first, k);
    let (place, left) = place_of(&counts[start..], k);
    let (mut node, mut rest) = (start + place, left);
    while step > 0 {
        step -= 1;
        let child = 16 * node;
        let (place, left) = place_of(&counts[child..child + 16], rest);
        node = child + place;
        rest = left;
    }
    (node - leaves, rest)
}

/// The node on the way up from a leaf below the first one that counts more than k, and how many steps it is up.
fn climb(counts: &[u32], leaf: usize, k: u32) -> (usize, u32)
    requires inside { leaf < length counts.now }
    requires some { 0 < leaf }
    requires below { k < slice_index counts.now 0 }
    ensures some { 0 < result.0 }
    ensures from { result.0 * 16 ^ result.1 ≤ leaf }
    ensures to { leaf < (result.0 + 1) * 16 ^ result.1 }
    ensures parent { k < slice_index counts.now (result.0 / 16) }
{
    let (mut node, mut step) = (leaf, 0);
    while counts[node / 16] <= k {
        node /= 16;
        step += 1;
    }
    (node, step)
}

/// The first of some counts with which they are more than k, and how many of its things come before the k-th.
fn place_of(counts: &[u32], k: u32) -> (usize, u32)
    requires { k < sum counts.now }
    ensures inside { result.0 < length counts.now }
    ensures rank { sum (take result.0 counts.now) + result.1 ≡ k }
    ensures rest { result.1 < slice_index counts.now result.0 }
{
    let mut rest = k;
    for (place, count) in counts.iter().enumerate() {
        if rest < *count {
            return (place, rest);
        }
        rest -= *count;
    }
    // The counts are more than k, so this is never reached.
    (counts.len(), rest)
}
