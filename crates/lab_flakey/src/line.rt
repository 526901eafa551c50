ghost use Rattle.std.specs.Prelude.{◌≡◌, ◌≤◌, ◌==◌, IfOk, IfSome, MatchResult, Ok, Err, codes, drop, length, slice_get};
ghost use Rattle.std.specs.Option.{unwrap_or};
ghost use Rattle.lab_text.specs.Numbers.{number_of};
ghost use Rattle.lab_text.specs.Words.{words_left};
ghost use Rattle.lab_target.specs.Laws.{greatest_sector};
ghost use Rattle.lab_flakey.specs.Flakey.{arguments, counts_said, is_interval, with_counts};
ghost use Rattle.lab_flakey.specs.Intervals.{IsInterval};
ghost use Rattle.lab_flakey.specs.Readings.{draft_read};
ghost use Rattle.lab_flakey.specs.Words.{pcg_words};

use crate::feature::Features;
use crate::features::{count, read_features};
use crate::rules::{conflicts, is_interval};
use lab_sector::MAX_SECTOR;
use lab_target::TargetFault;
use lab_text::{NumberFault, Words, number};

/// The numbers of a line: its offset in sectors, its intervals in seconds, and how many words its
/// features have.
#[derive(Clone, Copy)]
pub(crate) struct Counts {
    pub(crate) first: u64,
    pub(crate) up: u32,
    pub(crate) down: u32,
    count: u32,
}

/// What a line's words say, before its device is known.
#[derive(Clone, Copy)]
pub(crate) struct Given<'a> {
    pub(crate) device: &'a [u8],
    pub(crate) counts: Counts,
    pub(crate) features: Features,
}

/// What a line's words after its type say.
pub(crate) fn read_line<'a>(mut words: Words<'a>) -> Result<Given<'a>, TargetFault>
    ensures near { IfOk result (λ given. given.counts.first ≤ greatest_sector) }
    ensures interval { IfOk result (λ given. IsInterval given.counts.up given.counts.down) }
    ensures line { MatchResult result
        (λ given. arguments pcg_words (words_left words.entry) ≡ Ok (draft_read given))
        (λ fault. arguments pcg_words (words_left words.entry) ≡ Err fault) }
{
    let (Some(device), Some(offset), Some(up), Some(down)) = (
        words.next(),
        words.next(),
        words.next(),
        words.next(),
    ) else {
        return Err(TargetFault::Args);
    };
    let told = told_count(&mut words);
    let counts = read_counts(offset, up, down, told).ok_or(TargetFault::Number)?;
    with_counts(device, counts, words)
}

/// How many words the features have, as it is told: 0 where it isn't.
fn told_count<'a>(words: &mut Words<'a>) -> &'a [u8]
    ensures count { result.now ≡ unwrap_or (slice_get (words_left words.old) 0) (codes "0") }
    ensures rest { words_left words.new ≡ drop 1 (words_left words.old) }
{
    match words.next() {
        None => b"0",
        Some(word) => word,
    }
}

/// The numbers of a line, if all are in their ranges.
fn read_counts(offset: &[u8], up: &[u8], down: &[u8], told: &[u8]) -> Option<Counts>
    ensures near { IfSome result (λ counts. counts.first ≤ greatest_sector) }
    ensures said { result ≡ counts_said offset.now up.now down.now told.now }
{
    let (Ok(first), Ok(up), Ok(down), Ok(count)) = (
        sector(offset),
        count(up),
        count(down),
        count(told),
    ) else {
        return None;
    };
    Some(Counts {
        first,
        up,
        down,
        count,
    })
}

/// A sector that a table may name.
#[tactic(auto, unfolding(lab_text::specs::Numbers::number_of))]
fn sector(word: &[u8]) -> Result<u64, NumberFault>
    ensures near { IfOk result (λ first. first ≤ greatest_sector) }
    ensures said { result ≡ number_of word.now greatest_sector }
{
    number(word, MAX_SECTOR)
}

/// What a line of these numbers says whose features' words are the rest.
fn with_counts<'a>(
    device: &'a [u8],
    counts: Counts,
    rest: Words<'_>,
) -> Result<Given<'a>, TargetFault>
    requires { counts.first ≤ greatest_sector }
    ensures near { IfOk result (λ given. given.counts.first ≤ greatest_sector) }
    ensures interval { IfOk result (λ given. IsInterval given.counts.up given.counts.down) }
    ensures line { MatchResult result
        (λ given. with_counts pcg_words device.now counts (words_left rest.entry)
        ≡ Ok (draft_read given))
        (λ fault. with_counts pcg_words device.now counts (words_left rest.entry) ≡ Err fault) }
{
    if !is_interval(counts.up, counts.down) {
        return Err(TargetFault::Interval);
    }
    if !are_so_many(rest, counts.count) {
        return Err(TargetFault::Args);
    }
    let features = read_features(rest)?;
    if conflicts(&features) {
        return Err(TargetFault::Conflict);
    }
    Ok(Given {
        device,
        counts,
        features,
    })
}

/// Whether there are so many words.
fn are_so_many(mut words: Words<'_>, count: u32) -> bool
    ensures { result ≡ (length (words_left words.entry) == count) }
{
    'words: for _place in 0..count {
        if words.next().is_none() {
            return false;
        }
    }
    words.next().is_none()
}
