ghost use Rattle.std.specs.Prelude.{◌≡◌, ◌++◌, IfOk, OnOk};
ghost use Rattle.lab_refusal.specs.FaultText.{fault_text, part_text};
ghost use Rattle.lab_refusal.specs.Faults.{fault_seen, log_told, part_seen, script_told, table_told};
ghost use Rattle.lab_refusal.specs.Faults.{target_rule, told_by};
ghost use Rattle.lab_refusal.specs.Refusals.{refusal_at};

use lab_history::HistoryFault;
use lab_iolog::LogFault;
use lab_model::Rule;
use lab_script::ScriptFault;
use lab_sector::NoMemory;
use lab_table::Why;
use lab_target::TargetFault;
use lab_text::{BundleFault, push_number};
use std::alloc::{AllocError, AllocFailed, Global};

/// The part of a bundle that a fault is in.
#[derive(Clone, Copy, Debug, PartialEq, Eq)]
pub enum PartName<'a> {
    Bundle,
    Table(&'a [u8]),
    Script,
    Log(&'a [u8]),
    Limits,
    Budget,
    History,
}

/// The first fault of a bundle.
#[derive(Clone, Copy, Debug, PartialEq, Eq)]
pub struct Fault<'a> {
    pub part: PartName<'a>,
    /// The line, counted from 1 in the part (in the bundle for the part `Bundle`); 0 where the fault is of no line.
    pub line: u64,
    pub rule: Rule,
}

/// Why a bundle is no scenario.
#[derive(Clone, Copy, Debug, PartialEq, Eq)]
pub enum Refusal<'a> {
    Fault(Fault<'a>),
    NoMemory,
}

impl Fault<'_> {
    /// The fault as a refusal tells it: `PART LINE RULE`.
    pub fn text(&self, alloc: Global) -> Result<Vec<u8>, NoMemory>
        ensures { IfOk result (λ text. text.items ≡ fault_text (fault_seen self.now)) }
    {
        let mut out = Vec::new(alloc);
        push_part(&mut out, self.part)?;
        out.push(b' ')?;
        push_number(&mut out, self.line)?;
        out.push(b' ')?;
        out.extend_from_slice(self.rule.name().as_bytes())?;
        Ok(out)
    }
}

/// Prints a part's name as a refusal tells it.
fn push_part(out: &mut Vec<u8>, part: PartName<'_>) -> Result<(), NoMemory>
    ensures { OnOk result (out.new.items ≡ out.old.items ++ part_text (part_seen part.entry)) }
{
    match part {
        PartName::Bundle => out.extend_from_slice(b"bundle")?,
        PartName::Table(name) => push_named(out, b"table ", name)?,
        PartName::Script => out.extend_from_slice(b"script")?,
        PartName::Log(name) => push_named(out, b"log ", name)?,
        PartName::Limits => out.extend_from_slice(b"limits")?,
        PartName::Budget => out.extend_from_slice(b"budget")?,
        PartName::History => out.extend_from_slice(b"history")?,
    }
    Ok(())
}

/// Prints a word and a name.
fn push_named(out: &mut Vec<u8>, word: &[u8], name: &[u8]) -> Result<(), NoMemory>
    ensures { OnOk result (out.new.items ≡ out.old.items ++ word.now ++ name.now) }
{
    out.extend_from_slice(word)?;
    out.extend_from_slice(name)?;
    Ok(())
}

impl<'a> Refusal<'a> {
    /// A fault of this part.
    pub fn at(part: PartName<'a>, line: u64, rule: Rule) -> Refusal<'a>
        ensures { result ≡ refusal_at part.entry line rule }
    {
        Refusal::Fault(Fault { part, line, rule })
    }

    /// A fault of the script.
    pub fn script(line: u64, rule: Rule) -> Refusal<'a>
        ensures { result ≡ refusal_at PartName.Script line rule }
    {
        Refusal::at(PartName::Script, line, rule)
    }
}

impl From<NoMemory> for Refusal<'_> {
    ghost use Rattle.std.specs.Prelude.{◌≡◌};
    ghost use Rattle.lab_refusal.specs.declared.fault.Refusal.TheVariants.{NoMemory};

    ghost from_gives = { λ _ refusal. refusal ≡ NoMemory };

    fn from(_refused: NoMemory) -> Self {
        Refusal::NoMemory
    }
}

impl From<AllocError> for Refusal<'_> {
    ghost use Rattle.std.specs.Prelude.{◌≡◌};
    ghost use Rattle.lab_refusal.specs.declared.fault.Refusal.TheVariants.{NoMemory};

    ghost from_gives = { λ _ refusal. refusal ≡ NoMemory };

    fn from(_refused: AllocError) -> Self {
        Refusal::NoMemory
    }
}

impl<T: Drop> From<AllocFailed<T>> for Refusal<'_> {
    ghost use Rattle.std.specs.Prelude.{◌≡◌};
    ghost use Rattle.lab_refusal.specs.declared.fault.Refusal.TheVariants.{NoMemory};

    ghost from_gives = { λ _ refusal. refusal ≡ NoMemory };

    fn from(_refused: AllocFailed<T>) -> Self {
        Refusal::NoMemory
    }
}

impl From<BundleFault> for Refusal<'_> {
    ghost use Rattle.std.specs.Prelude.{◌≡◌};
    ghost use Rattle.lab_refusal.specs.Faults.{bundle_told, told_by};

    ghost from_gives = { λ fault refusal. told_by refusal ≡ bundle_told fault };

    fn from(fault: BundleFault) -> Self {
        let (line, rule) = match fault {
            BundleFault::TooBig => (0, Rule::TooBig),
            BundleFault::NotText(line) => (line, Rule::NotText),
            BundleFault::BadHeading(line) => (line, Rule::BadHeading),
            BundleFault::Twice(line) => (line, Rule::Twice),
            BundleFault::Stray(line) => (line, Rule::Stray),
            BundleFault::NoScript => (0, Rule::NoScript),
            BundleFault::NoMemory => return Refusal::NoMemory,
        };
        Refusal::at(PartName::Bundle, line, rule)
    }
}

impl From<HistoryFault> for Refusal<'_> {
    ghost use Rattle.std.specs.Prelude.{◌≡◌};
    ghost use Rattle.lab_refusal.specs.Faults.{history_told, told_by};

    ghost from_gives = { λ fault refusal. told_by refusal ≡ history_told fault };

    fn from(fault: HistoryFault) -> Self {
        match fault {
            HistoryFault::BadLine(line) => Refusal::at(PartName::History, line, Rule::BadLine),
            HistoryFault::NoMemory => Refusal::NoMemory,
        }
    }
}

/// The refusal of a table's part for a fault of its text.
pub fn table_refusal(name: &[u8], line: u64, why: Why) -> Refusal<'_>
    ensures { told_by result ≡ table_told name.now line why }
{
    let rule = match why {
        Why::TooManyLines => Rule::TooManyLines,
        Why::Args => Rule::Args,
        Why::Number => Rule::Number,
        Why::ZeroLength => Rule::ZeroLength,
        Why::Gap => Rule::Gap,
        Why::Empty => Rule::Empty,
        Why::Target(TargetFault::NoMemory) => return Refusal::NoMemory,
        Why::Target(fault) => target_rule(fault),
    };
    Refusal::at(PartName::Table(name), line, rule)
}

/// The rule that a target's fault breaks.
fn target_rule(fault: TargetFault) -> Rule
    ensures { result ≡ target_rule fault }
{
    match fault {
        TargetFault::Args => Rule::Args,
        TargetFault::Number => Rule::Number,
        TargetFault::Interval => Rule::Interval,
        TargetFault::Feature => Rule::Feature,
        TargetFault::Conflict => Rule::Conflict,
        TargetFault::Value => Rule::Value,
        TargetFault::BlockSize => Rule::BlockSize,
        TargetFault::TooLong => Rule::TooLong,
        TargetFault::Unknown => Rule::Unknown,
        TargetFault::Device | TargetFault::NoMemory => Rule::Device,
    }
}

/// The refusal of the script for a fault of its text.
pub fn script_refusal(fault: ScriptFault) -> Refusal<'static>
    ensures { told_by result ≡ script_told fault }
{
    match fault {
        ScriptFault::BadLine(line) => Refusal::script(line, Rule::BadLine),
        ScriptFault::NoMemory => Refusal::NoMemory,
    }
}

/// The refusal of a log's part for a fault of its text.
pub fn log_refusal(name: &[u8], fault: LogFault) -> Refusal<'_>
    ensures { told_by result ≡ log_told name.now fault }
{
    let (line, rule) = match fault {
        LogFault::Header => (1, Rule::Header),
        LogFault::BadLine(line) => (line, Rule::BadLine),
        LogFault::Unaligned(line) => (line, Rule::Unaligned),
        LogFault::EmptyRange(line) => (line, Rule::EmptyRange),
        LogFault::TooLong(line) => (line, Rule::TooLong),
        LogFault::TooManyLines(line) => (line, Rule::TooManyLines),
        LogFault::NoMemory => return Refusal::NoMemory,
    };
    Refusal::at(PartName::Log(name), line, rule)
}
