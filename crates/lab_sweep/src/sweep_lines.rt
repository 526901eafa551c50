ghost use Rattle.std.specs.Prelude.{◌≡◌, ◌++◌, IfOk, OnOk};
ghost use Rattle.std.specs.List.{flat_map};
ghost use Rattle.lab_sweep.specs.SeedLine.{seed_line};
ghost use Rattle.lab_sweep.specs.SweepLines.{digest_line, sweep_text};

use crate::outcome::SeedOutcome;
use crate::seed_line::push_outcome;
use crate::tally::{SeedCount, tally_of};
use indexmap::IndexMap;
use lab_sector::NoMemory;
use lab_text::push_numbered;
use std::alloc::Global;

/// A line for each outcome, and then a line for each digest.
pub(crate) fn text_of(alloc: Global, outcomes: &[SeedOutcome]) -> Result<Vec<u8>, NoMemory>
    ensures { IfOk result (λ text. text.items ≡ sweep_text outcomes.now) }
{
    let mut out = Vec::new(alloc);
    push_outcomes(&mut out, outcomes)?;
    push_digests(&mut out, &tally_of(alloc, outcomes)?)?;
    Ok(out)
}

/// Appends a line for each outcome.
fn push_outcomes(out: &mut Vec<u8>, outcomes: &[SeedOutcome]) -> Result<(), NoMemory>
    ensures { OnOk result (out.new.items ≡ out.old.items ++ flat_map seed_line outcomes.now) }
{
    for outcome in outcomes {
        push_outcome(out, outcome)?;
    }
    Ok(())
}

/// Appends a line for each digest.
#[tactic(auto, using(crate::proofs::Rulesets::push_digests))]
fn push_digests(out: &mut Vec<u8>, counts: &IndexMap<[u8; 16], SeedCount>) -> Result<(), NoMemory>
    ensures { OnOk result (out.new.items ≡ out.old.items ++ flat_map digest_line counts.now.entries) }
{
    for place in 0..counts.len() {
        let Some((digest, count)) = counts.get_index(place) else {
            unreachable!();
        };
        push_digest(out, digest, count)?;
    }
    Ok(())
}

/// Appends `digest DIGEST first=N count=K`, as a line.
fn push_digest(out: &mut Vec<u8>, digest: &[u8; 16], count: &SeedCount) -> Result<(), NoMemory>
    ensures { OnOk result (out.new.items ≡ out.old.items ++ digest_line (digest.now, count.now)) }
{
    out.extend_from_slice(b"digest ")?;
    out.extend_from_slice(digest)?;
    push_numbered(out, b" first=", count.first)?;
    push_numbered(out, b" count=", count.count)?;
    out.push(b'\n')?;
    Ok(())
}
