//! The headline: every accepted scenario runs well, for every order in which events may come; and its
//! micro-commands are those that its script compiles to.
#![tactic(auto)]

ghost use Rattle.law_headline.specs.Bounds.{Bounds};
ghost use Rattle.law_headline.specs.CompiledIsWalked.{AcceptedIsCompiled, KnownIsCompiled};
ghost use Rattle.law_headline.specs.Headline.{Headline};

use lab_target::Target;

/// For every accepted scenario and every order in which its events are allowed to happen: no event
/// meets a missing table, a closed file or a sector past an end; unless all is done, some event may
/// come; at most the budget of them are not the clock's, and at most as many are; and once all is
/// done every bio has been answered exactly once.
pub fn headline<T: Target>()
    ensures runs_well { Headline T.meaning }
    ensures bounded { Bounds T.meaning }
{}

/// The micro-commands that a script compiles to, without its tables, are those of the walk that
/// knows them, where each table that a command asks for is known. In an accepted scenario they all
/// are.
pub fn compiled_is_walked<T: Target>()
    ensures known { KnownIsCompiled T.meaning }
    ensures accepted { AcceptedIsCompiled T.meaning }
{}
