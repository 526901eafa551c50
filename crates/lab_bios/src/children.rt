ghost use Rattle.std.specs.Prelude.{◌≡◌, ◌+◌, ◌-◌, ◌<◌, ◌^◌, IfSome, option_map};
ghost use Rattle.lab_index.specs.Lists.{change_numbered, joined, numbered};
ghost use Rattle.lab_model.specs.Guard.{is_bio};
ghost use Rattle.lab_bios.specs.Children.{is_count, parent_number};
ghost use Rattle.lab_bios.specs.Living.{with_count};

use crate::bio::{Bio, Living};
use lab_index::Numbered;
use lab_model::Parent;

/// Whether a bio was made for a piece of the bio of this number.
pub(crate) fn is_of_bio(number: u64, bio: &Bio) -> bool
    ensures { result ≡ is_bio number bio.now.parent }
{
    matches!(bio.parent, Parent::FromBio(parent, _) if parent == number)
}

/// The number of the bio that a parent is; 0, which none has, where it is a log.
pub fn parent_number(parent: Parent) -> u64
    ensures { result ≡ parent_number parent }
{
    match parent {
        Parent::FromBio(number, _) => number,
        Parent::FromLog(_, _, _) => 0,
    }
}

/// One more was made for a piece of the living bio of this number, if there is one. Whether it is the first is told.
#[inline(always)]
pub(crate) fn count_more(living: &mut Numbered<Living>, number: u64) -> bool
    requires { IfSome (joined (numbered living.old.items number))
        (λ parent. parent.children + 1 < 2 ^ 64) }
    ensures items { living.new.items
        ≡ change_numbered living.old.items number (option_map (with_count (λ count. count + 1))) }
    ensures room { living.new.room ≡ living.old.room }
    ensures first { result ≡ is_count 0
        (option_map (λ parent. parent.children) (joined (numbered living.old.items number))) }
{
    if living.get(number).is_none() {
        return false;
    }
    let parent = living.get_mut(number);
    parent.children += 1;
    parent.children == 1
}

/// One of those that were made for a piece of the living bio of this number, if there is one, lives no more. Whether
/// none of them is left is told.
#[inline(always)]
pub(crate) fn count_less(living: &mut Numbered<Living>, number: u64) -> bool
    requires { IfSome (joined (numbered living.old.items number)) (λ parent. 0 < parent.children) }
    ensures items { living.new.items
        ≡ change_numbered living.old.items number (option_map (with_count (λ count. count - 1))) }
    ensures last { result ≡ is_count 0
        (option_map (λ parent. parent.children) (joined (numbered living.new.items number))) }
{
    if living.get(number).is_none() {
        return false;
    }
    let parent = living.get_mut(number);
    parent.children -= 1;
    parent.children == 0
}
