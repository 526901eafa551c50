//! Laws of the laboratory's runs, for any lawful type of target.
#![tactic(auto)]

ghost use Rattle.law_answered_once.specs.AnsweredOnce.{AnsweredOnce, AnsweredWhenDone};
ghost use Rattle.law_answered_once.specs.LineOrder.{AllAnsweredInLineOrder, AnsweredInLineOrder, LogsStand};

use lab_target::Target;

/// In any run a living bio has no answer, and a dead one has exactly one.
pub fn answered_once<T: Target>()
    ensures { AnsweredOnce T.meaning }
{}

/// In a run after which all is done, each bio that was made has exactly one answer.
pub fn answered_when_done<T: Target>()
    ensures { AnsweredWhenDone T.meaning }
{}

/// In any run each log of the scenario stands, and no other.
pub fn logs_stand<T: Target>()
    ensures { LogsStand T.meaning }
{}

/// In any run each log's answers are to its operations so far, in line order.
/// Only the last has none yet while it is under way.
pub fn answered_in_line_order<T: Target>()
    ensures { AnsweredInLineOrder T.meaning }
{}

/// In a run after which all is done, each log has one answer to each of its operations,
/// in line order.
pub fn all_answered_in_line_order<T: Target>()
    ensures { AllAnsweredInLineOrder T.meaning }
{}
