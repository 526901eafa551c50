ghost use Rattle.std.specs.Prelude.{◌≡◌};
ghost use Rattle.lab_script.specs.declared.command.ScriptFault.TheVariants as faults;

use std::alloc::AllocFailed;
use thiserror::Error;

/// A script: its commands in order.
#[derive(Debug, Drop)]
pub struct Script<'a> {
    /// The lines that are neither blank nor comments.
    pub lines: Vec<ScriptLine<'a>>,
}

/// A line of a script that has a command.
#[derive(Clone, Copy, Debug, PartialEq, Eq)]
pub struct ScriptLine<'a> {
    /// Its number among all lines of the script, blank ones and comments too, counted from 1.
    pub number: u64,
    /// What it asks for.
    pub command: Command<'a>,
}

/// A command of a script: this project's own `ram`, `sleep`, `replay` and `wait`, and those of
/// dmsetup(8). Where a device is named, its name comes first.
#[derive(Clone, Copy, Debug, PartialEq, Eq)]
pub enum Command<'a> {
    /// The memory disk of this number has so many sectors.
    Ram(u32, u64),
    /// A mapped device is made, with this table if one is named.
    Create(&'a [u8], Option<&'a [u8]>),
    /// The device's inactive slot gets the table.
    Load(&'a [u8], &'a [u8]),
    /// The device's inactive slot is emptied.
    Clear(&'a [u8]),
    /// The device takes no more bios.
    Suspend(&'a [u8]),
    /// The device takes bios, by its inactive table if it has one.
    Resume(&'a [u8]),
    /// The device is gone.
    Remove(&'a [u8]),
    /// The device's line at this sector gets a message: the text from its first word to its last.
    Message(&'a [u8], u64, &'a [u8]),
    /// The state of the device's lines is told.
    Status(&'a [u8]),
    /// The device's lines are told.
    Table(&'a [u8]),
    /// The script waits so many microseconds.
    Sleep(u64),
    /// All logs start.
    Replay,
    /// The script waits until all logs have ended.
    Wait,
}

impl<'a> Command<'a> {
    ghost use Rattle.std.specs.Prelude.{option_copied};
    ghost use Rattle.lab_script.specs.Task.{device_asked, table_asked, task_of};

    /// The name of the device that it is for; a create is for none yet.
    pub fn device(self) -> Option<&'a [u8]>
        ensures { option_copied result ≡ device_asked (task_of self.entry) }
    {
        match self {
            Command::Load(name, _)
            | Command::Clear(name)
            | Command::Suspend(name)
            | Command::Resume(name)
            | Command::Remove(name)
            | Command::Message(name, _, _)
            | Command::Status(name)
            | Command::Table(name) => Some(name),
            _ => None,
        }
    }

    /// The name of the table that it asks for.
    pub fn table(self) -> Option<&'a [u8]>
        ensures { option_copied result ≡ table_asked (task_of self.entry) }
    {
        match self {
            Command::Create(_, chosen) => chosen,
            Command::Load(_, chosen) => Some(chosen),
            _ => None,
        }
    }
}

/// Why a text is no script. The number is a line's, counted from 1.
#[derive(Clone, Copy, Debug, PartialEq, Eq, Error)]
pub enum ScriptFault {
    /// The line has none of the commands' forms, or it declares a disk after another command.
    #[error("line {0} is no command")]
    BadLine(u64),
    /// A growth was refused: there was no memory for it.
    #[error("no memory")]
    NoMemory,
}

impl<T: Drop> From<AllocFailed<T>> for ScriptFault {
    ghost from_gives = { λ _ fault. fault ≡ faults.NoMemory };

    fn from(_refused: AllocFailed<T>) -> ScriptFault {
        ScriptFault::NoMemory
    }
}
