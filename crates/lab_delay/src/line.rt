ghost use Rattle.std.specs.Prelude.{◌≡◌, ◌==◌, ◌∷◌, ◌<◌, ◌≤◌, [], Some, IfOk, IsTrue, MatchResult, Ok, Err, length};
ghost use Rattle.lab_sector.specs.declared.device.DevNo.TheVariants.{Ram};
ghost use Rattle.std.specs.Prelude.{◌&&◌, false};
ghost use Rattle.std.specs.Result.{is_ok};
ghost use Rattle.lab_text.specs.Numbers.{number_of};
ghost use Rattle.lab_text.specs.Words.{words_left};
ghost use Rattle.lab_target.specs.declared.fault.TargetFault.TheVariants.{Args, Number};
ghost use Rattle.lab_target.specs.Laws.{greatest_sector};
ghost use Rattle.lab_delay.specs.Delay.{arguments};
ghost use Rattle.lab_delay.specs.Line.{are_near, are_timely, drafted, if_timely, is_timely, said};
ghost use Rattle.lab_delay.specs.Groups.{members};

use crate::group::DelayGroup;
use crate::grouped::Grouped;
use lab_sector::{DevNo, MAX_SECTOR};
use lab_target::{Ref, TargetFault};
use lab_text::{Words, number};

/// The greatest number that a delay's word may say.
const MAX_NUMBER: u64 = 4_294_967_295;

/// The greatest delay, an hour in milliseconds.
pub const LONGEST_DELAY: u64 = 3_600_000;

/// The three words of a group.
#[derive(Clone, Copy)]
pub(crate) struct GroupWords<'a> {
    /// The device word.
    device: &'a [u8],
    /// The word of the offset, in sectors.
    offset: &'a [u8],
    /// The word of the delay, in milliseconds.
    delay: &'a [u8],
}

/// A group before its device is known.
#[derive(Clone, Copy)]
pub(crate) struct GivenGroup<'a> {
    /// The device word.
    pub(crate) device: &'a [u8],
    /// The sector of the device that stands for the line's first.
    first: u64,
    /// How long bios are held, in milliseconds.
    delay: u64,
}

/// The words of each group: a line has three, six or nine words after its type.
pub(crate) fn words_by_group<'a>(
    mut words: Words<'a>,
) -> Result<Grouped<GroupWords<'a>>, TargetFault>
    ensures { MatchResult result
        (λ line. arguments (words_left words.entry) ≡ said line)
        (λ fault. arguments (words_left words.entry) ≡ Err fault) }
{
    let first = next_group(&mut words)?;
    if is_over(words) {
        return Ok(Grouped::One(first));
    }
    let second = next_group(&mut words)?;
    if is_over(words) {
        return Ok(Grouped::Two(first, second));
    }
    let third = next_group(&mut words)?;
    if is_over(words) {
        return Ok(Grouped::Three(first, second, third));
    }
    Err(TargetFault::Args)
}

/// The next three words.
fn next_group<'a>(words: &mut Words<'a>) -> Result<GroupWords<'a>, TargetFault>
    ensures { MatchResult result
        (λ group. words_left words.old
        ≡ group.device.now ∷ group.offset.now ∷ group.delay.now ∷ words_left words.new)
        (λ fault. (fault ≡ Args) × (length (words_left words.old) < 3)) }
{
    match (words.next(), words.next(), words.next()) {
        (Some(device), Some(offset), Some(delay)) => Ok(GroupWords {
            device,
            offset,
            delay,
        }),
        _ => Err(TargetFault::Args),
    }
}

/// Whether no word is left.
fn is_over(mut words: Words<'_>) -> bool
    ensures { result ≡ (length (words_left words.entry) == 0) }
{
    words.next().is_none()
}

/// What a line's words after its type say of each group, before its devices are known.
pub(crate) fn line_groups<'a>(words: Words<'a>) -> Result<Grouped<GivenGroup<'a>>, TargetFault>
    ensures near { IfOk result are_near }
    ensures timely { IfOk result (λ groups. IsTrue (are_timely groups)) }
    ensures line { MatchResult result
        (λ groups. arguments (words_left words.entry) ≡ Ok (drafted groups))
        (λ fault. arguments (words_left words.entry) ≡ Err fault) }
{
    let groups = given_by_group(words_by_group(words)?)?;
    if are_timely(groups) {
        Ok(groups)
    } else {
        Err(TargetFault::TooLong)
    }
}

/// What the words of each group say.
fn given_by_group<'a>(line: Grouped<GroupWords<'a>>) -> Result<Grouped<GivenGroup<'a>>, TargetFault>
    ensures near { IfOk result are_near }
    ensures line { MatchResult result
        (λ groups. said line.entry ≡ if_timely (are_timely groups) (drafted groups))
        (λ fault. said line.entry ≡ Err fault) }
{
    Ok(match line {
        Grouped::One(all) => Grouped::One(given(all)?),
        Grouped::Two(reads, others) => Grouped::Two(given(reads)?, given(others)?),
        Grouped::Three(reads, writes, flushes) => {
            Grouped::Three(given(reads)?, given(writes)?, given(flushes)?)
        }
    })
}

/// What the three words of a group say.
fn given<'a>(words: GroupWords<'a>) -> Result<GivenGroup<'a>, TargetFault>
    ensures near { IfOk result (λ group. group.first ≤ greatest_sector) }
    ensures words { MatchResult result
        (λ group. (number_of words.entry.offset.now greatest_sector ≡ Ok group.first)
        × (number_of words.entry.delay.now 4294967295 ≡ Ok group.delay)
        × (group.device.now ≡ words.entry.device.now))
        (λ fault. (fault ≡ Number) × ((is_ok (number_of words.entry.offset.now greatest_sector)
        && is_ok (number_of words.entry.delay.now 4294967295)) ≡ false)) }
{
    match (
        number(words.offset, MAX_SECTOR),
        number(words.delay, MAX_NUMBER),
    ) {
        (Ok(first), Ok(delay)) => Ok(GivenGroup {
            device: words.device,
            first,
            delay,
        }),
        _ => Err(TargetFault::Number),
    }
}

/// Whether each group's delay is an hour at most.
fn are_timely(groups: Grouped<GivenGroup<'_>>) -> bool
    ensures { result ≡ are_timely groups.entry }
{
    match groups {
        Grouped::One(all) => is_timely(all),
        Grouped::Two(reads, others) => is_timely(reads) && is_timely(others),
        Grouped::Three(reads, writes, flushes) => {
            is_timely(reads) && is_timely(writes) && is_timely(flushes)
        }
    }
}

/// Whether the group's delay is an hour at most.
fn is_timely(group: GivenGroup<'_>) -> bool
    ensures { result ≡ is_timely group.entry }
{
    group.delay <= LONGEST_DELAY
}

/// The groups of a line, with some device in the place of each device word.
pub(crate) fn placed_groups(groups: Grouped<GivenGroup<'_>>) -> Grouped<DelayGroup>
    requires near { are_near groups }
    requires timely { IsTrue (are_timely groups) }
    ensures { members result ≡ (drafted groups.entry).made [] }
{
    match groups {
        Grouped::One(all) => Grouped::One(placed(all)),
        Grouped::Two(reads, others) => Grouped::Two(placed(reads), placed(others)),
        Grouped::Three(reads, writes, flushes) => {
            Grouped::Three(placed(reads), placed(writes), placed(flushes))
        }
    }
}

/// The group, with some device in the place of its device word.
fn placed(group: GivenGroup<'_>) -> DelayGroup
    requires near { group.first ≤ greatest_sector }
    requires timely { IsTrue (is_timely group) }
    ensures { result ≡ record {
      reference = record { dev = Ram 0; first = group.entry.first };
      delay = group.entry.delay;
    } }
{
    let reference = Ref {
        dev: DevNo::Ram(0),
        first: group.first,
    };
    DelayGroup::new(reference, group.delay)
}
