//! No run of a fine scenario goes wrong or stops before all is done, for any lawful type of
//! target.
#![tactic(auto)]

ghost use Rattle.law_never_wrong.specs.NeverStuck.{NeverStuck, RestsWhenDone};
ghost use Rattle.law_never_wrong.specs.NeverWrong.{EventsFit, ListsAreRuns, NeverWrong, OpeningFits, RunsFit};

use lab_target::Target;

/// In each state of a run of a fine scenario every living bio stands where it fits: its device is
/// there, with a table, and its sectors are inside; a piece's parent is in flight above it.
pub fn runs_fit<T: Target>()
    ensures opening { OpeningFits T.meaning }
    ensures event { EventsFit T.meaning }
    ensures run { RunsFit T.meaning }
{}

/// Events each of which may come after those before it are a run of a fine scenario; and after any
/// run no event that may come meets a missing device or table, a closed file, a sector past an
/// end, or a message that its line doesn't take.
pub fn never_wrong<T: Target>()
    ensures list { ListsAreRuns T.meaning }
    ensures event { NeverWrong T.meaning }
{}

/// After any run of a fine scenario some event may come, unless all is done.
pub fn never_stuck<T: Target>()
    ensures { NeverStuck T.meaning }
{}

/// After a complete run no event may come.
pub fn rests_when_done<T: Target>()
    ensures { RestsWhenDone T.meaning }
{}
