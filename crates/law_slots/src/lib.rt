//! The laws of the laboratory's machine, over any type of target.
#![tactic(auto)]

ghost use Rattle.law_slots.specs.CallsWalk.{IsWalk};
ghost use Rattle.law_slots.specs.WalkIsKept.{WalkIsKept};

use lab_target::Target;

/// Each call of the devices does to the slots, seen without their targets' states, what its step of the walk does.
pub fn calls_walk<T: Target>()
    ensures { IsWalk T.meaning }
{}

/// After any run the slots and modes of the devices are those that the micro-commands done so far
/// make, and as many are done as the run has control events.
pub fn walk_is_kept<T: Target>()
    ensures { WalkIsKept T.meaning }
{}
