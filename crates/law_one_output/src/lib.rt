//! What the program writes is settled by its job and its input: there is one output, and only one.
#![tactic(auto)]

ghost use Rattle.law_one_output.specs.Exact.{AllIsOne, HasAllOutput, HasOutput, OutputIsOne, StudyIsOne};

use lab_target::Target;

/// A job on a bundle's bytes has one output: whether it is a refusal or has found a failure, its text, and what standard
/// error is told besides. The job has the seed, whether the history is asked for, whether the run is to be prompt, and
/// the findings that are asked for.
pub fn output_is_one<T: Target>()
    ensures { OutputIsOne T.meaning }
{}

/// A study on a bundle's bytes has one output: of a trace or of the disks, by a seed or a history, and of a sweep, with findings, with disks or without.
pub fn study_is_one<T: Target>()
    ensures { StudyIsOne T.meaning }
{}

/// A check of all parts of a bundle has one output: which faults it tells beside the first one, and in which order.
pub fn all_is_one<T: Target>()
    ensures { AllIsOne T.meaning }
{}

/// A job has one, whatever the bytes are: no bundle falls between the kinds of answers.
pub fn has_output<T: Target>()
    ensures { HasOutput T.meaning }
{}

/// A check of all parts has one, too.
pub fn has_all_output<T: Target>()
    ensures { HasAllOutput T.meaning }
{}
