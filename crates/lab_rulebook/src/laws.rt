ghost use Rattle.lab_rulebook.specs.AcceptedIsFine.{AcceptedIsFine};
ghost use Rattle.lab_rulebook.specs.BriefParts.{PartsAreBrief};
ghost use Rattle.lab_rulebook.specs.BundleTexts.{BundleHasTexts};
ghost use Rattle.lab_rulebook.specs.Told.{AcceptedHasNoFault};
ghost use Rattle.lab_rulebook.specs.WellReadParts.{PartsAreWellRead};

use lab_target::Target;

/// A scenario that breaks none of the rules is fine: its script, tables and logs give each run what
/// it needs so that nothing goes wrong.
pub fn accepted_is_fine<T: Target>()
    ensures { AcceptedIsFine T.meaning }
{}

/// A scenario is accepted exactly where none of the faults that can be told is there.
pub fn accepted_has_no_fault<T: Target>()
    ensures { AcceptedHasNoFault T.meaning }
{}

/// The texts of a bundle that was read are those of its bytes.
pub fn bundle_has_texts()
    ensures { BundleHasTexts }
{}

/// What is read of any texts is well read: tables without a gap, with sound targets in their
/// opening state, and messages of words.
pub fn parts_are_well_read<T: Target>()
    ensures { PartsAreWellRead T.meaning }
{}

/// What is read of any texts sleeps and waits no longer than words may say, an hour.
pub fn parts_are_brief<T: Target>()
    ensures { PartsAreBrief T.meaning }
{}
