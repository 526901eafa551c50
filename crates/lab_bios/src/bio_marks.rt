ghost use Rattle.std.specs.Prelude.{◌≡◌};
ghost use Rattle.lab_bios.specs.BioMarks.{mark_of, marks_of, value_of, values_of};
ghost use Rattle.lab_target.specs.Types.{no_marks};

use lab_target::{Mark, Marks};

/// The values of a bio's marks. They stand apart from the places, since all of them fit where a few bytes are free.
#[derive(Clone, Copy, Debug)]
pub struct MarkValues {
    fixed: Option<u8>,
    random: Option<u8>,
}

/// The places of a bio's marks: any, where a mark has no value.
#[derive(Clone, Copy, Debug)]
pub struct MarkPlaces {
    fixed: u64,
    random: u64,
}

impl MarkValues {
    /// No byte is changed, whatever the places.
    #[inline(always)]
    pub fn none() -> MarkValues
        ensures { result ≡ values_of no_marks }
    {
        MarkValues::of(Marks::NONE)
    }

    /// The values of these marks.
    #[inline(always)]
    pub fn of(marks: Marks) -> MarkValues
        ensures { result ≡ values_of marks }
    {
        MarkValues {
            fixed: value(marks.fixed),
            random: value(marks.random),
        }
    }

    /// The marks of these values at some places.
    #[inline(always)]
    pub(crate) fn at(&self, places: &MarkPlaces) -> Marks
        ensures { result ≡ marks_of self.now places.now }
    {
        Marks {
            fixed: mark_of(places.fixed, self.fixed),
            random: mark_of(places.random, self.random),
        }
    }
}

impl MarkPlaces {
    /// No byte is changed.
    #[inline(always)]
    pub fn none() -> MarkPlaces
        ensures { marks_of (values_of no_marks) result ≡ no_marks }
    {
        MarkPlaces::of(Marks::NONE)
    }

    /// The places of these marks: with their values there they are the marks.
    #[inline(always)]
    pub fn of(marks: Marks) -> MarkPlaces
        ensures { marks_of (values_of marks) result ≡ marks }
    {
        MarkPlaces {
            fixed: place(marks.fixed),
            random: place(marks.random),
        }
    }
}

/// The value of a mark, if there is one.
#[inline(always)]
fn value(mark: Option<Mark>) -> Option<u8>
    ensures { result ≡ value_of mark }
{
    Some(mark?.value)
}

/// The place of a mark; 0 where there is none.
#[inline(always)]
fn place(mark: Option<Mark>) -> u64
    ensures { mark_of result (value_of mark) ≡ mark }
{
    match mark {
        Some(mark) => mark.place,
        None => 0,
    }
}

/// A mark at a place, if there is a value for it.
#[inline(always)]
fn mark_of(place: u64, value: Option<u8>) -> Option<Mark>
    ensures { result ≡ mark_of place value }
{
    let value = value?;
    Some(Mark { place, value })
}
