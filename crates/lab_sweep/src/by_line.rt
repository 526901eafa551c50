ghost use Rattle.std.specs.Prelude.{◌≡◌, ◌+◌, ◌∷◌, ◌++◌, ◌%◌, ℕ, List, IfOk, OnOk};
ghost use Rattle.std.specs.List.{flat_map};
ghost use Rattle.lab_sweep.specs.ByLine.{HasMostFirst, IsByLine, count_columns, count_line};
ghost use Rattle.lab_sweep.specs.ByLine.{percent_text, place_columns, share};
ghost use Rattle.lab_sweep.specs.FoundRow.{tabbed};

use crate::columns::{push_name, push_wide, push_word, word_of};
use crate::line_counts::{FoundAt, LineCounts};
use crate::tally::SeedCount;
use lab_sector::NoMemory;
use lab_table::Scenario;
use lab_target::Target;
use lab_text::push_numbered;
use std::alloc::Global;

/// Appends the names of the columns, and a line for each count, those of the most seeds first, where this many seeds
/// were run.
pub(crate) fn push_by_line<T: Target>(
    text: &mut Vec<u8>,
    alloc: Global,
    scenario: &Scenario<T>,
    runs: u64,
    counts: &LineCounts,
) -> Result<(), NoMemory>
    ensures { OnOk result ((lines : List ℕ) × IsByLine scenario.now runs counts.now.entries lines
        × (text.new.items ≡ text.old.items ++ lines)) }
{
    let ranked = ranked(alloc, counts)?;
    push_word(text, b"finding\tlog\tname\tline\tseeds\tfirst\tpercent\n")?;
    push_counts(text, scenario, runs, &ranked)
}

/// The counts, those of the most seeds first, and equal ones in the order in which they were.
fn ranked(alloc: Global, counts: &LineCounts) -> Result<Vec<(FoundAt, SeedCount)>, NoMemory>
    ensures { IfOk result (λ ranked. HasMostFirst counts.now.entries ranked.items) }
{
    let mut ranked = entries(alloc, counts)?;
    ranked.sort_by(|a, b| b.1.count.cmp(&a.1.count))?;
    Ok(ranked)
}

/// The counts as a list.
#[tactic(auto, using(crate::proofs::Rulesets::push_digests))]
fn entries(alloc: Global, counts: &LineCounts) -> Result<Vec<(FoundAt, SeedCount)>, NoMemory>
    ensures { IfOk result (λ entries. entries.items ≡ counts.now.entries) }
{
    let mut entries = Vec::new(alloc);
    for place in 0..counts.len() {
        let Some((at, count)) = counts.get_index(place) else {
            unreachable!();
        };
        entries.push((*at, *count))?;
    }
    Ok(entries)
}

/// Appends a line for each count.
fn push_counts<T: Target>(
    text: &mut Vec<u8>,
    scenario: &Scenario<T>,
    runs: u64,
    counts: &[(FoundAt, SeedCount)],
) -> Result<(), NoMemory>
    ensures { OnOk result (text.new.items
        ≡ text.old.items ++ flat_map (count_line scenario.now runs) counts.now) }
{
    for entry in counts {
        push_count(text, scenario, runs, *entry)?;
    }
    Ok(())
}

/// Appends the line of a count, where this many seeds were run.
fn push_count<T: Target>(
    text: &mut Vec<u8>,
    scenario: &Scenario<T>,
    runs: u64,
    entry: (FoundAt, SeedCount),
) -> Result<(), NoMemory>
    ensures { OnOk result (text.new.items ≡ text.old.items ++ count_line scenario.now runs entry) }
{
    let (at, count) = entry;
    push_word(text, word_of(at.finding))?;
    push_place(text, scenario, at)?;
    push_seeds(text, runs, count)?;
    text.push(b'\n')?;
    Ok(())
}

/// Appends the operation of a count: its log, the log's name and its line.
fn push_place<T: Target>(
    text: &mut Vec<u8>,
    scenario: &Scenario<T>,
    at: FoundAt,
) -> Result<(), NoMemory>
    ensures { OnOk result (text.new.items
        ≡ text.old.items ++ tabbed (place_columns scenario.now at)) }
{
    push_numbered(text, b"\t", u64::from(at.log))?;
    push_name(text, scenario, at.log)?;
    push_numbered(text, b"\t", at.line)
}

/// Appends how many seeds have it, the first of them, and which share of all seeds that were run they are.
fn push_seeds(text: &mut Vec<u8>, runs: u64, count: SeedCount) -> Result<(), NoMemory>
    ensures { OnOk result (text.new.items ≡ text.old.items ++ tabbed (count_columns runs count)) }
{
    push_numbered(text, b"\t", count.count)?;
    push_numbered(text, b"\t", count.first)?;
    push_percent(text, share(count.count, runs))
}

/// A share in hundredths of a percent, cut off.
fn share(part: u64, whole: u64) -> u128
    ensures { result ≡ share part whole }
{
    u128::from(part) * 10000 / u128::from(whole.max(1))
}

/// Appends a tab and hundredths of a percent as a percentage with two decimals.
fn push_percent(text: &mut Vec<u8>, share: u128) -> Result<(), NoMemory>
    ensures { OnOk result (text.new.items ≡ text.old.items ++ 9 ∷ percent_text share) }
{
    text.push(b'\t')?;
    push_wide(text, share / 100)?;
    text.push(b'.')?;
    text.push(digit(share / 10))?;
    text.push(digit(share))?;
    Ok(())
}

/// The last digit of a number.
fn digit(number: u128) -> u8
    ensures { result ≡ 48 + number % 10 }
{
    b'0' + (number % 10) as u8
}
