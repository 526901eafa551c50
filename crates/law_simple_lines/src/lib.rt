//! Which of dmlab's own lines take just what the budget counts for them, and which pass each piece
//! as it is.
#![tactic(auto)]

ghost use Rattle.lab_simple.specs.ErrorTarget.{error_target};
ghost use Rattle.lab_simple.specs.Linear.{linear};
ghost use Rattle.lab_simple.specs.Zero.{zero_target};
ghost use Rattle.lab_delay.specs.Delay.{delay_target};
ghost use Rattle.law_within_budget.specs.PassesAll.{TypePassesAll};
ghost use Rattle.law_simple_lines.specs.ExactBudgets.{BudgetsAreExact};
ghost use Rattle.law_simple_lines.specs.ExactLines.{ExactAmongAny};
ghost use Rattle.law_simple_lines.specs.PlainLines.{AllPlain, PlainAmongAny};

/// Linear, zero, error and delay targets take the dearest course of each piece, also among targets
/// of any type.
pub fn simple_targets_pass_all()
    ensures linear { TypePassesAll linear }
    ensures zero { TypePassesAll zero_target }
    ensures error { TypePassesAll error_target }
    ensures delay { TypePassesAll delay_target }
    ensures any { ExactAmongAny }
{}

/// In each accepted scenario of the program's own linear, zero, error and delay lines, in which no device gets a second
/// table, every run after which all is done takes exactly as many events as the budget that is printed, the clock's
/// left out.
pub fn budgets_are_exact()
    ensures { BudgetsAreExact }
{}

/// Linear and delay pass bios of each kind as they are, also among targets of any type.
pub fn plain_lines_carry()
    ensures linear { AllPlain linear }
    ensures delay { AllPlain delay_target }
    ensures any { PlainAmongAny }
{}
