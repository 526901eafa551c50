ghost use Rattle.std.specs.Prelude.{◌≡◌, ◌++◌, IfOk, OnOk};
ghost use Rattle.lab_image.specs.Changes.{marks_behind, marks_below, with_mark};

use lab_sector::NoMemory;
use lab_target::Mark;
use std::alloc::Global;

/// The changed bytes of a sector with one more: a value that the byte had before is forgotten.
pub(crate) fn with_mark(alloc: Global, marks: &[Mark], mark: Mark) -> Result<Vec<Mark>, NoMemory>
    ensures { IfOk result (λ out. out.items ≡ with_mark marks.now mark) }
{
    let mut out = Vec::new(alloc);
    push_below(&mut out, marks, mark.place)?;
    out.push(mark)?;
    push_behind(&mut out, marks, mark.place)?;
    Ok(out)
}

/// Appends those in front of a byte.
fn push_below(out: &mut Vec<Mark>, marks: &[Mark], byte: u64) -> Result<(), NoMemory>
    ensures { OnOk result (out.new.items ≡ out.old.items ++ marks_below byte marks.now) }
{
    for mark in marks {
        if mark.place < byte {
            out.push(*mark)?;
        }
    }
    Ok(())
}

/// Appends those behind a byte.
fn push_behind(out: &mut Vec<Mark>, marks: &[Mark], byte: u64) -> Result<(), NoMemory>
    ensures { OnOk result (out.new.items ≡ out.old.items ++ marks_behind byte marks.now) }
{
    for mark in marks {
        if mark.place > byte {
            out.push(*mark)?;
        }
    }
    Ok(())
}

/// The same changed bytes once more.
pub(crate) fn copied(alloc: Global, marks: &[Mark]) -> Result<Vec<Mark>, NoMemory>
    ensures { IfOk result (λ out. out.items ≡ marks.now) }
{
    let mut out = Vec::with_capacity(alloc, marks.len())?;
    for mark in marks {
        out.push(*mark)?;
    }
    Ok(out)
}
