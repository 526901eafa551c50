ghost use Rattle.std.specs.Prelude.{◌≡◌, ◌<◌, length, Ok};
ghost use Rattle.lab_table.specs.TableText.{IsLineRead, IsRead, table_of};
ghost use Rattle.lab_table.specs.Unbound.{AreBound, AreOfText, line_under};

use crate::fault::{TableFault, Why};
use crate::table::Table;
use lab_model::TableLine;
use lab_sector::NoMemory;
use lab_target::{Names, Target, Unbound};
use std::alloc::Global;
use std::marker::Model;

/// A line of a table before its device words are bound to devices.
#[derive(Drop)]
pub(crate) struct UnboundLine<'a, T: Target> {
    /// The number of the line in the text, counted from 1.
    pub number: u64,
    /// The first sector of the line.
    pub start: u64,
    /// How many sectors it has.
    pub len: u64,
    pub target: Unbound<'a, T>,
}

/// A table as its text says it, before its device words are bound to devices. It is seen as its text.
#[derive(Drop)]
pub struct UnboundTable<'a, T: Target> {
    text: &'a [u8],
    lines: Vec<UnboundLine<'a, T>>,
}

impl<'a, T: Target> Model for UnboundTable<'a, T> {
    ghost use Rattle.std.specs.Prelude.{List, ℕ, ◌<◌, length};
    ghost use Rattle.lab_table.specs.Unbound.{AreOfText};

    ghost Value = { List ℕ };

    ghost view = { λ table. table.text.now };

    ghost invariant = { λ table. (0 < length table.lines.items)
        × AreOfText T.meaning T.bound table.text.now table.lines.items };
}

impl<'a, T: Target> UnboundTable<'a, T> {
    /// The table of a text that has these lines.
    pub(crate) fn of_lines(text: &'a [u8], lines: Vec<UnboundLine<'a, T>>) -> UnboundTable<'a, T>
        requires some { 0 < length lines.items }
        requires lines { AreOfText T.meaning T.bound text.now lines.items }
        ensures { result ≡ text.now }
    {
        UnboundTable { text, lines }
    }

    /// The table with the devices that `names` gives its device words.
    pub fn bind<N: Names>(&self, alloc: Global, names: &N) -> Result<Table<T>, TableFault>
        ensures { IsRead (table_of T.meaning (N.found names.now) self.now) result }
    {
        let lines = bound_lines(alloc, &self.lines, names)?;
        Ok(Table::of_lines(lines))
    }
}

/// Lines with the devices that `names` gives their device words.
pub(crate) fn bound_lines<T: Target, N: Names>(
    alloc: Global,
    lines: &[UnboundLine<'_, T>],
    names: &N,
) -> Result<Vec<TableLine<T>>, TableFault>
    ensures { AreBound T.bound (N.found names.now) lines.now result }
{
    let mut bound = Vec::new(alloc);
    for line in lines {
        match bound_line(alloc, line, names) {
            Ok(next) => {
                if bound.push(next).is_err() {
                    return Err(TableFault {
                        line: line.number,
                        why: Why::from(NoMemory),
                    });
                }
            }
            Err(why) => {
                return Err(TableFault {
                    line: line.number,
                    why,
                });
            }
        }
    }
    Ok(bound)
}

/// A line with the devices that `names` gives its device words.
fn bound_line<T: Target, N: Names>(
    alloc: Global,
    line: &UnboundLine<'_, T>,
    names: &N,
) -> Result<TableLine<T>, Why>
    ensures { IsLineRead (line_under T.bound (N.found names.now) line.now) result }
{
    let target = T::bind_words(&line.target, alloc, names)?;
    Ok(TableLine {
        start: line.start,
        len: line.len,
        target,
    })
}
