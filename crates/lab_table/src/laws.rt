ghost use Rattle.lab_table.specs.Printed.{ReadsBack};

use lab_target::Target;

/// A table that was read is in its opening state. Whatever happened to its targets since, loaded again it is that
/// table, and so is what its printed text is read as, under names that find its devices by their printed words.
pub fn table_reads_back<T: Target>()
    ensures { ReadsBack T.meaning }
{}
