ghost use Rattle.std.specs.Prelude.{◌≡◌, option_copied};
ghost use Rattle.lab_model.specs.Lists.{numbered};

/// The item of this number, counted from 1.
pub fn numbered<X>(items: &[X], number: u32) -> Option<&X>
    ensures { option_copied result ≡ numbered items.now number }
{
    items.get((number as usize).checked_sub(1)?)
}
