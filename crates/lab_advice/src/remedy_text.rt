ghost use Rattle.std.specs.Prelude.{◌≡◌, ◌++◌, OnOk, codes, decimal, flat_map, string_bytes};
ghost use Rattle.lab_advice.specs.RemedyText.{asked_text, choice_text, mends_text, remedy_text, spot_text};

use crate::remedy::{Mend, Remedy, Spot};
use crate::show::push_number;
use lab_sector::NoMemory;

/// Appends the remedy, as a line, unless memory runs out.
pub fn push_remedy(text: &mut String, remedy: &Remedy) -> Result<(), NoMemory>
    ensures { OnOk result (string_bytes text.new
        ≡ string_bytes text.old ++ remedy_text remedy.now) }
{
    text.push_str("dmlab: ")?;
    text.push_str(remedy.why.as_str())?;
    push_mends(text, remedy.mends.as_slice())?;
    text.push_str("\n")?;
    Ok(())
}

/// Appends what to write: nothing but a full stop, a line, or the question which of some lines is meant.
fn push_mends(text: &mut String, mends: &[Mend]) -> Result<(), NoMemory>
    ensures { OnOk result (string_bytes text.new
        ≡ string_bytes text.old ++ mends_text mends.now) }
{
    match mends {
        [] => text.push_str(".")?,
        [mend] => push_mend(text, mend)?,
        _ => push_question(text, mends)?,
    }
    Ok(())
}

/// Appends the line to write, and where.
fn push_mend(text: &mut String, mend: &Mend) -> Result<(), NoMemory>
    ensures { OnOk result (string_bytes text.new
        ≡ string_bytes text.old ++ (spot_text mend.now.spot ++ string_bytes mend.now.line)) }
{
    push_where(text, mend.spot)?;
    text.push_str(mend.line.as_str())?;
    Ok(())
}

/// Appends where a line goes, or which one to leave blank.
fn push_where(text: &mut String, spot: Spot) -> Result<(), NoMemory>
    ensures { OnOk result (string_bytes text.new ≡ string_bytes text.old ++ spot_text spot) }
{
    match spot {
        Spot::On(number) => push_spot(text, ". Write on line ", number, ": "),
        Spot::Before(number) => push_spot(text, ". Write before line ", number, ": "),
        Spot::Blank(number) => push_spot(text, ". Leave line ", number, " blank"),
    }
}

/// Appends the question which of these lines is meant.
fn push_question(text: &mut String, mends: &[Mend]) -> Result<(), NoMemory>
    ensures { OnOk result (string_bytes text.new ≡ string_bytes text.old
        ++ (codes ". Which is meant?" ++ flat_map choice_text mends.now)) }
{
    text.push_str(". Which is meant?")?;
    push_choices(text, mends)
}

/// Appends the lines that may be meant, one behind the other.
fn push_choices(text: &mut String, mends: &[Mend]) -> Result<(), NoMemory>
    ensures { OnOk result (string_bytes text.new
        ≡ string_bytes text.old ++ flat_map choice_text mends.now) }
{
    for mend in mends {
        push_choice(text, mend)?;
    }
    Ok(())
}

/// Appends one of the lines that may be meant.
fn push_choice(text: &mut String, mend: &Mend) -> Result<(), NoMemory>
    ensures { OnOk result (string_bytes text.new
        ≡ string_bytes text.old ++ choice_text mend.now) }
{
    push_asked(text, mend.spot)?;
    text.push_str(mend.line.as_str())?;
    text.push_str("`?")?;
    Ok(())
}

/// Appends where a line that may be meant goes.
fn push_asked(text: &mut String, spot: Spot) -> Result<(), NoMemory>
    ensures { OnOk result (string_bytes text.new ≡ string_bytes text.old ++ asked_text spot) }
{
    match spot {
        Spot::On(number) => push_spot(text, " On line ", number, ": `"),
        Spot::Before(number) => push_spot(text, " Before line ", number, ": `"),
        Spot::Blank(number) => push_spot(text, " Line ", number, " blank: `"),
    }
}

/// Appends a number with words before and behind it.
fn push_spot(text: &mut String, words: &str, number: u64, behind: &str) -> Result<(), NoMemory>
    ensures { OnOk result (string_bytes text.new
        ≡ string_bytes text.old ++ (words.now ++ decimal number ++ behind.now)) }
{
    text.push_str(words)?;
    push_number(text, number)?;
    text.push_str(behind)?;
    Ok(())
}
