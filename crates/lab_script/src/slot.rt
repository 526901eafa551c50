ghost use Rattle.std.specs.Prelude.{◌≡◌, ◌≢◌, None, Some, MatchBool};

use super::command::Command;
use lab_model::Mode;

/// A mapped device that stands: which of its versions are in its two slots, and its mode.
#[derive(Clone, Copy, Debug, PartialEq, Eq)]
pub struct DeviceVersions {
    /// The live version, counted from 0.
    pub live: Option<usize>,
    /// The inactive version, counted from 0.
    pub inactive: Option<usize>,
    /// Whether it runs or is suspended.
    pub mode: Mode,
}

impl DeviceVersions {
    ghost use Rattle.lab_model.specs.ControlEffect as effect;
    ghost use Rattle.lab_script.specs.Image.{plain};
    ghost use Rattle.lab_script.specs.Slots as slots;
    ghost use Rattle.lab_script.specs.Task.{task_of};

    /// A device that runs, with this version live if there is one.
    pub fn created(live: Option<usize>) -> DeviceVersions
        ensures { plain result ≡ effect.created live }
    {
        DeviceVersions {
            live,
            inactive: None,
            mode: Mode::Running,
        }
    }

    /// The device with this in its inactive slot.
    pub fn with_inactive(self, inactive: Option<usize>) -> DeviceVersions
        ensures { plain result ≡ effect.with_inactive inactive (plain self) }
    {
        DeviceVersions { inactive, ..self }
    }

    /// The device suspended.
    pub fn suspended(self) -> DeviceVersions
        ensures { plain result ≡ effect.with_mode Mode.Suspended (plain self) }
    {
        DeviceVersions {
            mode: Mode::Suspended,
            ..self
        }
    }

    /// The device running, with its inactive version live if it has one.
    pub fn swapped(self) -> DeviceVersions
        ensures { plain result ≡ effect.swapped (plain self) }
    {
        match self.inactive {
            Some(version) => DeviceVersions::created(Some(version)),
            None => DeviceVersions::created(self.live),
        }
    }

    /// The device after a resume: a running one without an inactive version stays as it is.
    pub fn resumed(self) -> DeviceVersions
        ensures { plain result ≡ slots.resumed (plain self) }
    {
        match (self.mode, self.inactive) {
            (Mode::Suspended, _) | (_, Some(_)) => self.swapped(),
            (_, None) => self,
        }
    }

    /// The device after a command on it. Of a load `version` is the one that it loads; another command needs none.
    pub fn after(self, command: Command<'_>, version: Option<usize>) -> DeviceVersions
        ensures { plain result ≡ slots.slot_after (task_of command.entry) version (plain self) }
    {
        match command {
            Command::Load(_, _) => self.with_inactive(version),
            Command::Clear(_) => self.with_inactive(None),
            Command::Suspend(_) => self.suspended(),
            Command::Resume(_) => self.resumed(),
            _ => self,
        }
    }

    /// Whether it runs.
    pub fn runs(self) -> bool
        ensures { MatchBool result (self.mode ≡ Mode.Running) (self.mode ≢ Mode.Running) }
    {
        matches!(self.mode, Mode::Running)
    }

    /// Whether it is suspended.
    pub fn is_suspended(self) -> bool
        ensures { result ≡ slots.is_suspended self.mode }
    {
        matches!(self.mode, Mode::Suspended)
    }
}
