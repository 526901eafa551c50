ghost use Rattle.std.specs.Prelude.{◌≡◌};
ghost use Rattle.lab_model.specs.LogEffect.{kind_of};
ghost use Rattle.lab_model.specs.Report.{action_word};

use lab_sector::{Kind, Span};

/// An operation of a log (fio's manual, trace file format version 2).
#[derive(Clone, Copy, Debug, PartialEq, Eq)]
pub enum Action {
    Read,
    Write,
    Sync,
    Datasync,
    Trim,
}

impl Action {
    /// The kind of the request that the operation makes: both syncs are flushes.
    pub fn kind(self) -> Kind
        ensures { result ≡ kind_of self }
    {
        match self {
            Action::Read => Kind::Read,
            Action::Write => Kind::Write,
            Action::Sync | Action::Datasync => Kind::Flush,
            Action::Trim => Kind::Trim,
        }
    }

    /// The word that stands for it in a log and in a report.
    pub fn word(self) -> &'static str
        ensures { result.now ≡ action_word self }
    {
        match self {
            Action::Read => "read",
            Action::Write => "write",
            Action::Sync => "sync",
            Action::Datasync => "datasync",
            Action::Trim => "trim",
        }
    }
}

/// What a log's line asks for (fio's manual, trace file format version 2).
#[derive(Clone, Copy, Debug, PartialEq, Eq)]
pub enum Entry {
    /// The file may be opened from now on.
    Add,
    /// The file may be used from now on.
    Open,
    /// The file may not be used any more.
    Close,
    /// The log waits so many microseconds; a wait below 100 is discarded.
    Wait(u64),
    /// An operation on these sectors of the file's device; a sync has none.
    Operate(Action, Span),
}
