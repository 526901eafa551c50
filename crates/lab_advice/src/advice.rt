ghost use Rattle.std.specs.Prelude.{◌≡◌, ◌++◌, IfOk, string_bytes};
ghost use Rattle.lab_advice.specs.Places.{Shows};
ghost use Rattle.lab_advice.specs.RemedyText.{remedy_text};
ghost use Rattle.lab_advice.specs.Shown.{place_text};
ghost use Rattle.lab_advice.specs.declared.place.Place.{Place};

use crate::place::place_of;
use crate::remedy::Remedy;
use crate::remedy_text::push_remedy;
use crate::show::push_told;
use crate::trouble::Trouble;
use lab_sector::NoMemory;
use std::alloc::Global;

/// What a tester is told of a refused bundle of these bytes: the line that stopped it, where it is of one; and what is
/// wrong there, with what to write.
pub fn advice_on(
    alloc: Global,
    bytes: &[u8],
    trouble: Trouble<'_>,
    remedy: &Remedy,
) -> Result<String, NoMemory>
    ensures { IfOk result (λ text. (place : Place) → Shows bytes.now trouble.entry place
        → string_bytes text ≡ place_text place ++ remedy_text remedy.now) }
{
    let mut text = String::new(alloc);
    push_told(&mut text, place_of(bytes, trouble))?;
    push_remedy(&mut text, remedy)?;
    Ok(text)
}
