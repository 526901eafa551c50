ghost use Rattle.std.specs.Prelude.{◌≡◌, IfSome, IfNone};
ghost use Rattle.lab_advice.specs.Places.{Shows, ShowsLine, event_line, fault_part};
ghost use Rattle.lab_advice.specs.declared.place.Place.{Place};

use crate::lines::{Part, heading_number, line_at, lines_behind};
use crate::trouble::Trouble;
use lab_refusal::PartName;
use lab_text::{is_heading, is_skipped};

/// A line that stopped the bundle.
#[derive(Clone, Copy)]
pub struct Place<'a> {
    pub part: Part<'a>,
    /// The line's number in its part, counted from 1.
    pub within: u64,
    /// Its number in the bundle, counted from 1.
    pub number: u64,
    pub line: &'a [u8],
}

/// The line that a trouble is of, if it is of one.
pub fn place_of<'a>(bytes: &'a [u8], trouble: Trouble<'a>) -> Option<Place<'a>>
    ensures shows { IfSome result (λ place. Shows bytes.now trouble.entry place) }
    ensures none { IfNone result ((place : Place) → ¬ Shows bytes.now trouble.entry place) }
{
    match trouble {
        Trouble::Fault(fault) => place_in(bytes, fault_part(fault.part), fault.line),
        Trouble::NotARun(event) => place_in(bytes, Part::History, event_line(bytes, event)?),
        Trouble::Unfinished(_) => None,
    }
}

/// The part of this name.
fn fault_part(name: PartName<'_>) -> Part<'_>
    ensures { result ≡ fault_part name.entry }
{
    match name {
        PartName::Bundle | PartName::Limits | PartName::Budget => Part::Whole,
        PartName::Table(name) => Part::Table(name),
        PartName::Script => Part::Script,
        PartName::Log(name) => Part::Log(name),
        PartName::History => Part::History,
    }
}

/// The line of this number of a part; 0 is none.
fn place_in<'a>(bytes: &'a [u8], part: Part<'a>, within: u64) -> Option<Place<'a>>
    ensures shows { IfSome result (λ place. ShowsLine bytes.now part.entry within place) }
    ensures none { IfNone result
        ((place : Place) → ¬ ShowsLine bytes.now part.entry within place) }
{
    if within == 0 {
        return None;
    }
    let number = heading_number(bytes, part)?.checked_add(within)?;
    let line = line_at(bytes, number)?;
    Some(Place {
        part,
        within,
        number,
        line,
    })
}

/// The line of the history, counted from 1 in it, that has its event at this place, counted from 1.
#[tactic(auto, using(crate::proofs::Rulesets::event_line))]
fn event_line(bytes: &[u8], event: u64) -> Option<u64>
    ensures { result ≡ event_line bytes.now event }
{
    let mut before = event.checked_sub(1)?;
    let heading = heading_number(bytes, Part::History)?;
    let mut within = 0u64;
    for line in lines_behind(bytes, heading) {
        within += 1;
        if is_heading(line) {
            return None;
        }
        if is_skipped(line) {
            continue;
        }
        if before == 0 {
            return Some(within);
        }
        before -= 1;
    }
    None
}
