ghost use Rattle.std.specs.Prelude.{◌≡◌, ◌++◌, [], ◌∷◌, decimal, IfOk, OnOk};
ghost use Rattle.lab_table.specs.Printed.{table_text};

use lab_model::TableLine;
use lab_sector::NoMemory;
use lab_target::Target;
use lab_text::push_number;
use std::alloc::Global;

/// The lines of a table as they are given to dmsetup, each ended by a newline.
pub(crate) fn print_lines<T: Target>(
    alloc: Global,
    lines: &[TableLine<T>],
) -> Result<Vec<u8>, NoMemory>
    ensures { IfOk result (λ text. text.items ≡ table_text T.meaning lines.now) }
{
    let mut out = Vec::new(alloc);
    for line in lines {
        let words = line.target.print(alloc)?;
        push_line(&mut out, line.start, line.len, &words)?;
    }
    Ok(out)
}

/// Appends a line of a table: its start, its length and its target's words.
fn push_line(out: &mut Vec<u8>, start: u64, len: u64, words: &[u8]) -> Result<(), NoMemory>
    ensures { OnOk result (out.new.items ≡ out.old.items ++
        (decimal start ++ 32 ∷ decimal len ++ 32 ∷ words.now) ++ 10 ∷ []) }
{
    push_number(out, start)?;
    out.push(b' ')?;
    push_number(out, len)?;
    out.push(b' ')?;
    out.extend_from_slice(words)?;
    out.push(b'\n')?;
    Ok(())
}
