ghost use Rattle.std.specs.Prelude.{◌≡◌, ◌+◌, ◌-◌, ◌^◌, ◌<◌, ◌≤◌, [], ◌∷◌, false, length, take, IfSome, IfNone, IfOk, IfErr, OnOk, MatchOption, Some};
ghost use Rattle.lab_text.specs.Bundle.{is_heading, body_of, first_of};
ghost use Rattle.lab_text.specs.Lines.{lines_of, CutsLine};
ghost use Rattle.lab_text.specs.Reading.{BeginsPart, after_body, body_faults, plain_faults};

use super::bundle::BundleFault;
use super::heading::is_heading;
use super::lines::{are_body_bytes, first_line, is_blank, is_comment, is_text};

/// A place in a bundle where a line begins: the text from there on, and the line's number.
#[derive(Clone, Copy)]
pub struct Spot<'a> {
    /// The text from the line on.
    pub rest: &'a [u8],
    /// The line's number, counted from 1.
    pub number: u64,
    ghost countable: { number + length rest.now < 2 ^ 64 },
}

impl<'a> Spot<'a> {
    /// The first line of the text.
    pub fn first(text: &'a [u8]) -> Spot<'a>
        requires { length text.now < 2 ^ 63 }
        ensures text { result.rest.now ≡ text.now }
        ensures number { result.number ≡ 1 }
    {
        Spot {
            rest: text,
            number: 1,
        }
    }

    /// The line here and the place of the line after it; `None` at the end.
    pub fn first_line(self) -> Option<(&'a [u8], Spot<'a>)>
        ensures first { MatchOption result (self.entry.rest.now ≡ [])
            (λ p. lines_of self.entry.rest.now ≡ p.0.now ∷ lines_of p.1.rest.now) }
        ensures cut { IfSome result (λ p. CutsLine self.entry.rest.now p.0.now p.1.rest.now) }
        ensures number { IfSome result (λ p. p.1.number ≡ self.entry.number + 1) }
        ensures shorter { IfSome result (λ p. length p.1.rest.now < length self.entry.rest.now) }
    {
        let (line, rest) = first_line(self.rest)?;
        let below = Spot {
            rest,
            number: self.number + 1,
        };
        Some((line, below))
    }

    /// The line here and the place of the line after it; `None` at a heading and at the end.
    #[tactic(auto, using(crate::proofs::Rulesets::plain_line))]
    fn plain_line(self) -> Option<(&'a [u8], Spot<'a>)>
        ensures plain { IfSome result (λ p. is_heading p.0.now ≡ false) }
        ensures cut { IfSome result (λ p. CutsLine self.entry.rest.now p.0.now p.1.rest.now) }
        ensures number { IfSome result (λ p. p.1.number ≡ self.entry.number + 1) }
        ensures shorter { IfSome result (λ p. length p.1.rest.now < length self.entry.rest.now) }
        ensures none { IfNone result (BeginsPart (lines_of self.entry.rest.now)) }
    {
        let (line, below) = self.first_line()?;
        if is_heading(line) {
            return None;
        }
        Some((line, below))
    }
}

/// The end of the lines that follow here up to the next heading. Where they stand `in_part` they
/// only have to be text, and before the first heading they have to be blank or comments too.
#[tactic(auto, using(crate::proofs::Rulesets::body_end))]
pub fn body_end<'a>(start: Spot<'a>, in_part: bool) -> Result<Spot<'a>, BundleFault>
    ensures ok { let body = body_of (lines_of start.entry.rest.now) in
        OnOk result (body_faults in_part start.entry.number body ≡ []) }
    ensures err { let body = body_of (lines_of start.entry.rest.now) in
        IfErr result (λ fault.
        first_of (body_faults in_part start.entry.number body) ≡ Some fault) }

    // Where the lines end, and what stands there.
    ensures number { let body = body_of (lines_of start.entry.rest.now) in
        IfOk result (λ end. end.number ≡ start.entry.number + length body) }
    ensures rest { let after = after_body (lines_of start.entry.rest.now) in
        IfOk result (λ end. lines_of end.rest.now ≡ after) }
    ensures body { let text = start.entry.rest.now in
        IfOk result (λ end.
        lines_of (take (length text - length end.rest.now) text) ≡ body_of (lines_of text)) }
    ensures later { IfOk result (λ end. length end.rest.now ≤ length start.entry.rest.now) }
{
    let end = plain_end(start);
    if in_part && are_body_bytes(text_between(start, end)) {
        return Ok(end);
    }
    checked_end(start, in_part)
}

/// The end of the lines that follow here up to the next heading, whatever their bytes are.
#[tactic(auto, using(crate::proofs::Rulesets::plain_end))]
fn plain_end<'a>(start: Spot<'a>) -> Spot<'a>
    ensures number { result.number
        ≡ start.entry.number + length (body_of (lines_of start.entry.rest.now)) }
    ensures rest { lines_of result.rest.now ≡ after_body (lines_of start.entry.rest.now) }
    ensures body { let text = start.entry.rest.now in
        lines_of (take (length text - length result.rest.now) text) ≡ body_of (lines_of text) }
    ensures later { length result.rest.now ≤ length start.entry.rest.now }
{
    let mut spot = start;
    while let Some((_line, below)) = spot.plain_line() {
        spot = below;
    }
    spot
}

/// The end of the lines that follow here up to the next heading, each of which is checked.
fn checked_end<'a>(start: Spot<'a>, in_part: bool) -> Result<Spot<'a>, BundleFault>
    ensures ok { let body = body_of (lines_of start.entry.rest.now) in
        OnOk result (body_faults in_part start.entry.number body ≡ []) }
    ensures err { let body = body_of (lines_of start.entry.rest.now) in
        IfErr result (λ fault.
        first_of (body_faults in_part start.entry.number body) ≡ Some fault) }

    // Where the lines end, and what stands there.
    ensures number { let body = body_of (lines_of start.entry.rest.now) in
        IfOk result (λ end. end.number ≡ start.entry.number + length body) }
    ensures rest { let after = after_body (lines_of start.entry.rest.now) in
        IfOk result (λ end. lines_of end.rest.now ≡ after) }
    ensures body { let text = start.entry.rest.now in
        IfOk result (λ end.
        lines_of (take (length text - length end.rest.now) text) ≡ body_of (lines_of text)) }
    ensures later { IfOk result (λ end. length end.rest.now ≤ length start.entry.rest.now) }
{
    let mut spot = start;
    while let Some((line, below)) = spot.plain_line() {
        check_line(line, spot.number, in_part)?;
        spot = below;
    }
    Ok(spot)
}

/// Refuses a line that is no text, and before the first heading one that is a stray.
fn check_line(line: &[u8], number: u64, in_part: bool) -> Result<(), BundleFault>
    ensures ok { OnOk result (plain_faults in_part number line.now ≡ []) }
    ensures err { IfErr result (λ fault.
        first_of (plain_faults in_part number line.now) ≡ Some fault) }
{
    if !is_text(line) {
        return Err(BundleFault::NotText(number));
    }
    if !in_part && !is_blank(line) && !is_comment(line) {
        return Err(BundleFault::Stray(number));
    }
    Ok(())
}

/// The text from one place up to a later one.
pub fn text_between<'a>(start: Spot<'a>, end: Spot<'a>) -> &'a [u8]
    requires { length end.rest.now ≤ length start.rest.now }
    ensures { let text = start.entry.rest.now in
        result.now ≡ take (length text - length end.entry.rest.now) text }
{
    &start.rest[..start.rest.len() - end.rest.len()]
}
