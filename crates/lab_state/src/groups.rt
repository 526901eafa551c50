ghost use Rattle.std.specs.Prelude.{◌≡◌, ◌<◌, ◌↔◌, IsTrue, false, length, true};
ghost use Rattle.std.specs.List.{list_any};
ghost use Rattle.lab_bios.specs.Living.{living_of};
ghost use Rattle.lab_index.specs.Groups.{is_in};
ghost use Rattle.lab_model.specs.Guard.{is_bio};
ghost use Rattle.lab_state.specs.Grouped.{KeepsOthers, group_for as who_group, group_of as bio_group};

use lab_bios::{Bios, Stage};
use lab_index::Groups;
use lab_model::Who;

/// The group of the bios whose events are the timers'. Those below it are the logs', by their numbers; none is that of
/// the number 0.
const TIMERS: u32 = 65;

/// How many groups there are, where they are kept.
pub(crate) const COUNT: usize = 66;

/// The group of those whose events belong to `who`; 0, in which none is, for the script.
pub(crate) fn group_for(who: Who) -> u32
    ensures { result ≡ who_group who }
{
    match who {
        Who::Log(log) => log,
        Who::Timers => TIMERS,
        Who::Control => 0,
    }
}

/// Whether there is a group of those whose events belong to `who`.
pub(crate) fn has_group(groups: &Groups, who: Who) -> bool
    ensures { IsTrue result ↔ ((0 < who_group who) × (who_group who < length groups.now)) }
{
    let group = group_for(who) as usize;
    0 < group && group < groups.count()
}

/// The group that the living bio of this number is in once an event may come to it; 0 where there is no such bio.
fn group_of(bios: &Bios, number: u64) -> u32
    ensures { result ≡ bio_group bios.now.items number }
{
    let Some(bio) = bios.get(number) else {
        return 0;
    };
    match bio.stage {
        Stage::Held(_, _) => TIMERS,
        _ => bios.log_of(number),
    }
}

/// The bio of this number is in its group from now on, if there is that group. Where memory runs out no groups are kept.
#[inline(always)]
pub(crate) fn join(bios: &Bios, groups: &mut Groups, number: u64)
    ensures here { bio_group bios.now.items number < length groups.new
        → is_in groups.new (bio_group bios.now.items number) number ≡ true }
    ensures keeps { KeepsOthers groups.old groups.new number }
{
    if groups.count() > 0 {
        put_in(bios, groups, number);
    }
}

/// The bio of this number joins as `join` says, where groups are kept.
#[inline(never)]
fn put_in(bios: &Bios, groups: &mut Groups, number: u64)
    ensures here { bio_group bios.now.items number < length groups.new
        → is_in groups.new (bio_group bios.now.items number) number ≡ true }
    ensures keeps { KeepsOthers groups.old groups.new number }
{
    let group = group_of(bios, number) as usize;
    if group < groups.count() && groups.insert(group, number).is_err() {
        groups.close();
    }
}

/// The bio of this number is in its group no more.
#[inline(always)]
pub(crate) fn leave(bios: &Bios, groups: &mut Groups, number: u64)
    ensures keeps { KeepsOthers groups.old groups.new number }
{
    if groups.count() > 0 {
        take_out(bios, groups, number);
    }
}

/// The bio of this number leaves as `leave` says, where groups are kept.
#[inline(never)]
fn take_out(bios: &Bios, groups: &mut Groups, number: u64)
    ensures keeps { KeepsOthers groups.old groups.new number }
{
    groups.remove(group_of(bios, number) as usize, number);
}

/// No groups are kept from now on where a living bio was made for a piece of this one, which no run has when it is new.
#[inline(always)]
pub(crate) fn close_if_parent(bios: &Bios, groups: &mut Groups, number: u64)
    ensures same { 0 < length groups.new → groups.new ≡ groups.old }
    ensures childless { 0 < length groups.new
        → list_any (λ bio. is_bio number bio.parent) (living_of bios.now.items) ≡ false }
{
    if groups.count() > 0 && bios.has_child(number) {
        groups.close();
    }
}
