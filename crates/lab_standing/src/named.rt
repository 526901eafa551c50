ghost use Rattle.std.specs.Prelude.{◌≡◌, IfOk, find, map, option_copied};
ghost use Rattle.std.specs.Option.{option_and_then};
ghost use Rattle.std.specs.Result.{result_ok};
ghost use Rattle.std.specs.Str.{bytes_eq};
ghost use Rattle.lab_table.specs.TableText as table_text;
ghost use Rattle.lab_rulebook.specs.Parts.{Parts};
ghost use Rattle.lab_rulebook.specs.BoundWords.{word_device};
ghost use Rattle.lab_rulebook.specs.Standing.{table_named};
ghost use Rattle.lab_rulebook.specs.PartsOf.{table_part};
ghost use Rattle.lab_standing.specs.Image.{text_of};

use crate::standing::Standing;
use lab_sector::NoMemory;
use lab_table::{Table, TableFault, UnboundTable, Why};
use lab_target::{Target, TargetFault};
use std::alloc::Global;

/// A table under its name, as its text says it.
#[derive(Drop)]
pub struct NamedTable<'a, T: Target> {
    pub name: &'a [u8],
    pub table: UnboundTable<'a, T>,
}

impl<'a, T: Target> Standing<'a, T> {
    ghost use Rattle.lab_standing.specs.Stands.{standing_of};

    /// The table of a name with the names that stand, if they are those of its devices.
    pub fn table_of(
        &self,
        alloc: Global,
        tables: &[NamedTable<'a, T>],
        name: Option<&[u8]>,
    ) -> Result<Option<Table<T>>, NoMemory>
        ensures { IfOk result (λ table. (parts : Parts T)
            → parts.tables ≡ map (λ named. table_part T.meaning (text_of named)) tables.now
            → table ≡ option_and_then (table_named parts (standing_of T.meaning self.now))
            (option_copied name.entry)) }
    {
        match name {
            Some(name) => self.table_named(alloc, tables, name),
            None => Ok(None),
        }
    }

    /// The table of this name with the names that stand, if they are those of its devices.
    fn table_named(
        &self,
        alloc: Global,
        tables: &[NamedTable<'a, T>],
        name: &[u8],
    ) -> Result<Option<Table<T>>, NoMemory>
        ensures { IfOk result (λ table. (parts : Parts T)
            → parts.tables ≡ map (λ named. table_part T.meaning (text_of named)) tables.now
            → table ≡ table_named parts (standing_of T.meaning self.now) name.now) }
    {
        match named_so(tables, name) {
            Some(named) => self.bound(alloc, &named.table),
            None => Ok(None),
        }
    }

    /// A table with the names that stand, if they are those of its devices.
    fn bound(
        &self,
        alloc: Global,
        table: &UnboundTable<'a, T>,
    ) -> Result<Option<Table<T>>, NoMemory>
        ensures { IfOk result (λ bound. bound
            ≡ result_ok (table_text.table_of T.meaning (word_device (standing_of T.meaning self.now)) table.now)) }
    {
        match table.bind(alloc, self) {
            Ok(table) => Ok(Some(table)),
            Err(
                TableFault {
                    why: Why::Target(TargetFault::NoMemory),
                    ..
                },
            ) => Err(NoMemory),
            Err(_) => Ok(None),
        }
    }
}

/// The table of a name.
fn named_so<'b, 'a, T: Target>(
    tables: &'b [NamedTable<'a, T>],
    name: &[u8],
) -> Option<&'b NamedTable<'a, T>>
    ensures { option_copied result ≡ find (λ named. bytes_eq named.name.now name.now) tables.now }
{
    tables.iter().find(|named| named.name == name)
}
