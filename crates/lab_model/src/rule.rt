ghost use Rattle.std.specs.Prelude.{◌≡◌, ◌++◌, ◌==◌, [], codes, decimal, if◌then◌else◌, not};
ghost use Rattle.lab_model.specs.Rules.{rule_number, rule_word};

/// The rule that a fault breaks, by the name that a refusal tells.
#[derive(Clone, Copy, Debug, PartialEq, Eq)]
pub enum Rule {
    TooBig,
    NotText,
    BadHeading,
    Twice,
    Stray,
    NoScript,
    TooManyLines,
    Args,
    Number,
    ZeroLength,
    Gap,
    Empty,
    Interval,
    Feature,
    Conflict,
    Value,
    BlockSize,
    TooLong,
    Unknown,
    Device,
    BadLine,
    Header,
    Unaligned,
    EmptyRange,
    /// There is no history to audit.
    Missing,
    /// V1: an unknown device name, an unknown table, a table that names an unknown device.
    V1,
    /// V2: a create of a name in use, a disk of a number in use.
    V2,
    /// V3: a suspend, message, status or table of a device without a live table, a resume of one without any table.
    V3,
    /// V4: a line's reference isn't inside its device.
    V4,
    /// V5: a load of a table that is shorter than the live one.
    V5,
    /// V6: a running device is suspended above another one that is suspended.
    V6,
    /// V7: a device isn't running at the wait, or at the script's end where there is no wait.
    V7,
    /// V8: a remove of a device that a table or a log still uses.
    V8,
    /// V9: a message past the end, or one that the line there doesn't take.
    V9,
    /// V10: a second replay or wait, a wait before the replay, or no replay.
    V10,
    /// V11: a load closes a cycle over all tables that were loaded so far.
    V11,
    /// V12: a log line names no device, or one without a live table.
    V12,
    /// V13: a file is used that isn't open, or opened that isn't added or is open.
    V13,
    /// V14: a range goes past the size of its device.
    V14,
    /// V15: the budget, or the number of pieces that it is found by, is too great.
    V15,
    /// V16: there are too many disks, disk sectors, creates, tables, logs or commands.
    V16,
}

impl Rule {
    /// The rule's name.
    pub fn name(self) -> &'static str
        ensures { result.now ≡ rule_word self }
    {
        match self {
            Rule::TooBig => "TooBig",
            Rule::NotText => "NotText",
            Rule::BadHeading => "BadHeading",
            Rule::Twice => "Twice",
            Rule::Stray => "Stray",
            Rule::NoScript => "NoScript",
            Rule::TooManyLines => "TooManyLines",
            Rule::Args => "Args",
            Rule::Number => "Number",
            Rule::ZeroLength => "ZeroLength",
            Rule::Gap => "Gap",
            Rule::Empty => "Empty",
            Rule::Interval => "Interval",
            Rule::Feature => "Feature",
            Rule::Conflict => "Conflict",
            Rule::Value => "Value",
            Rule::BlockSize => "BlockSize",
            Rule::TooLong => "TooLong",
            Rule::Unknown => "Unknown",
            Rule::Device => "Device",
            Rule::BadLine => "BadLine",
            Rule::Header => "Header",
            Rule::Unaligned => "Unaligned",
            Rule::EmptyRange => "EmptyRange",
            Rule::Missing => "Missing",
            _ => self.numbered_name(),
        }
    }

    /// Whether this is a rule of the verifier: these are looked at once all parts are read.
    pub fn is_of_scenario(self) -> bool
        ensures { result ≡ not (rule_number self == 0) }
    {
        !self.numbered_name().is_empty()
    }

    /// The name of a rule of the verifier; nothing for a reader's.
    #[tactic(auto, unfolding(crate::proofs::Digits::digits))]
    fn numbered_name(self) -> &'static str
        ensures { result.now
            ≡ if rule_number self == 0 then [] else codes "V" ++ decimal (rule_number self) }
    {
        match self {
            Rule::V1 => "V1",
            Rule::V2 => "V2",
            Rule::V3 => "V3",
            Rule::V4 => "V4",
            Rule::V5 => "V5",
            Rule::V6 => "V6",
            Rule::V7 => "V7",
            Rule::V8 => "V8",
            Rule::V9 => "V9",
            Rule::V10 => "V10",
            Rule::V11 => "V11",
            Rule::V12 => "V12",
            Rule::V13 => "V13",
            Rule::V14 => "V14",
            Rule::V15 => "V15",
            Rule::V16 => "V16",
            _ => "",
        }
    }
}
