ghost use Rattle.std.specs.Prelude.{◌≡◌, ◌++◌, OnOk};
ghost use Rattle.lab_sweep.specs.SeedLine.{figures_text, seed_line};

use crate::outcome::SeedOutcome;
use lab_sector::NoMemory;
use lab_text::push_numbered;

/// Appends `seed N DIGEST eio=K steps=S clock=C now=T`, as a line.
#[tactic(auto, using(crate::proofs::Rulesets::push_outcome))]
pub(crate) fn push_outcome(out: &mut Vec<u8>, outcome: &SeedOutcome) -> Result<(), NoMemory>
    ensures { OnOk result (out.new.items ≡ out.old.items ++ seed_line outcome.now) }
{
    push_numbered(out, b"seed ", outcome.seed)?;
    out.push(b' ')?;
    out.extend_from_slice(&outcome.digest)?;
    push_figures(out, outcome)?;
    out.push(b'\n')?;
    Ok(())
}

/// Appends ` eio=K steps=S clock=C now=T`.
fn push_figures(out: &mut Vec<u8>, outcome: &SeedOutcome) -> Result<(), NoMemory>
    ensures { OnOk result (out.new.items ≡ out.old.items ++ figures_text outcome.now) }
{
    push_numbered(out, b" eio=", outcome.eio)?;
    push_numbered(out, b" steps=", outcome.steps)?;
    push_numbered(out, b" clock=", outcome.clock)?;
    push_numbered(out, b" now=", outcome.time)
}
