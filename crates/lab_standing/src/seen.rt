ghost use Rattle.std.specs.Prelude.{◌≡◌};
ghost use Rattle.lab_model.specs.Guard.{runs};

use lab_model::Mode;
use lab_table::Table;
use lab_target::Target;

/// A mapped device that stands, with the tables in its slots.
#[derive(Drop)]
pub struct Seen<'b, T: Target> {
    pub live: Option<&'b Table<T>>,
    pub inactive: Option<&'b Table<T>>,
    /// Whether it runs or is suspended.
    pub mode: Mode,
}

impl<T: Target> Seen<'_, T> {
    /// Whether it runs.
    pub fn runs(&self) -> bool
        ensures { result ≡ runs self.now.mode }
    {
        matches!(self.mode, Mode::Running)
    }
}
