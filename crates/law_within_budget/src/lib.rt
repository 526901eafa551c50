//! How many events a run takes, and how often and how far its clock goes on, for any lawful type
//! of target; and scenarios whose runs take exactly their budget.
#![tactic(auto)]

ghost use Rattle.law_within_budget.specs.ClockBounded.{ClockBounded};
ghost use Rattle.law_within_budget.specs.Exactly.{MeetsItsBudget, NothingLeft, StepsAndRest};
ghost use Rattle.law_within_budget.specs.Exactly.{StepsAreBudget};
ghost use Rattle.law_within_budget.specs.PotentialFalls.{OpeningIsBudget, PotentialFalls};
ghost use Rattle.law_within_budget.specs.PotentialFalls.{RunsFall, RunsKeepBudget};
ghost use Rattle.law_within_budget.specs.WithinBudget.{WithinBudget};

use lab_target::Target;

/// With each event but the clock's the potential falls by one at least, and with the clock's it
/// stays. So a run takes at most as many events, the clock's left out, as the budget says.
pub fn potential_falls<T: Target>()
    ensures event { PotentialFalls T.meaning }
    ensures run { RunsFall T.meaning }
    ensures opening { OpeningIsBudget T.meaning }
    ensures budget { RunsKeepBudget T.meaning }
{}

/// In each scenario in which no device lies below itself, and whose creates count from 0, every run takes at
/// most as many events as the budget, the clock's left out.
pub fn within_budget<T: Target>()
    ensures { WithinBudget T.meaning }
{}

/// In each scenario without a cycle in which nothing takes longer than an hour, the clock goes on
/// at most as often as the budget says, and never past an hour for each event of the budget that is
/// done; nor does a moment lie past that for which the script, a log or a bio waits.
pub fn clock_bounded<T: Target>()
    ensures { ClockBounded T.meaning }
{}

/// Where no device has more than one version and all targets take the dearest course of each piece,
/// a run after which all is done takes as many events as the budget says, the clock's left out.
pub fn steps_are_budget<T: Target>()
    ensures rest { StepsAndRest T.meaning }
    ensures done { NothingLeft T.meaning }
    ensures complete { StepsAreBudget T.meaning }
    ensures fine { MeetsItsBudget T.meaning }
{}
