ghost use Rattle.std.specs.Prelude.{◌≡◌, ◌++◌, IfOk, OnOk};
ghost use Rattle.lab_model.specs.Report.{text_line};
ghost use Rattle.lab_advice.specs.Mended.{line_mended, mended_text, spot_number};

use crate::remedy::{Mend, Spot};
use lab_sector::NoMemory;
use lab_text::Lines;
use std::alloc::Global;

/// The bundle of these bytes with a line to write in its place.
#[tactic(auto, using(crate::proofs::Rulesets::end_number))]
pub fn mended_bytes(alloc: Global, bytes: &[u8], mend: &Mend) -> Result<Vec<u8>, NoMemory>
    ensures { IfOk result (λ text. text.items ≡ mended_text bytes.now mend.now) }
{
    let mut text = Vec::new(alloc);
    let mut at = 0u64;
    for line in Lines::new(bytes) {
        at += 1;
        push_mended(&mut text, at, line, mend)?;
    }
    if at < number_of(mend.spot) {
        push_line(&mut text, mend.line.as_bytes())?;
    }
    Ok(text)
}

/// Appends the line of this number, or what the mend puts there.
fn push_mended(text: &mut Vec<u8>, at: u64, line: &[u8], mend: &Mend) -> Result<(), NoMemory>
    ensures { OnOk result (text.new.items ≡ text.old.items ++ line_mended mend.now at line.now) }
{
    if at != number_of(mend.spot) {
        return push_line(text, line);
    }
    push_line(text, mend.line.as_bytes())?;
    match mend.spot {
        Spot::Before(_) => push_line(text, line),
        Spot::On(_) | Spot::Blank(_) => Ok(()),
    }
}

/// The number of the line that a mend is for.
fn number_of(spot: Spot) -> u64
    ensures { result ≡ spot_number spot }
{
    match spot {
        Spot::On(number) | Spot::Before(number) | Spot::Blank(number) => number,
    }
}

/// Appends a line.
fn push_line(text: &mut Vec<u8>, line: &[u8]) -> Result<(), NoMemory>
    ensures { OnOk result (text.new.items ≡ text.old.items ++ text_line line.now) }
{
    text.extend_from_slice(line)?;
    text.push(b'\n')?;
    Ok(())
}
