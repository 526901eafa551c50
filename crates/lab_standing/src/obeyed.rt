ghost use Rattle.std.specs.Prelude.{◌≡◌, IfOk, is_some};
ghost use Rattle.lab_rulebook.specs.Standing.{obeyed};
ghost use Rattle.lab_script.specs.Task.{table_asked, task_of};
ghost use Rattle.lab_standing.specs.Sound.{IsSound};

use crate::entries::keep_table;
use crate::standing::Standing;
use lab_script::Command;
use lab_sector::NoMemory;
use lab_table::Table;
use lab_target::Target;
use std::alloc::Global;

impl<'a, T: Target> Standing<'a, T> {
    ghost use Rattle.lab_standing.specs.Stands.{standing_of};

    /// Does a command on names and devices, with the table that it asks for; without that it does nothing. More devices
    /// or versions than there are numbers would be more than memory has room for.
    pub fn obey(
        &mut self,
        alloc: Global,
        command: Command<'a>,
        table: Option<Table<T>>,
    ) -> Result<(), NoMemory>
        ensures stands { IfOk result (λ done. IsSound T.meaning self.old
            → is_some table ≡ is_some (table_asked (task_of command.entry))
            → standing_of T.meaning self.new
            ≡ obeyed T.meaning (standing_of T.meaning self.old) (task_of command.entry) table) }
        ensures sound { IfOk result (λ done. IsSound T.meaning self.old → IsSound T.meaning self.new) }
        ensures fault { IfOk result (λ done. self.new.fault ≡ self.old.fault) }
    {
        if table.is_some() != command.table().is_some() {
            return Ok(());
        }
        self.obey_with(alloc, command, table)
    }

    /// Does a command on names and devices, with the table that it asks for.
    fn obey_with(
        &mut self,
        alloc: Global,
        command: Command<'a>,
        table: Option<Table<T>>,
    ) -> Result<(), NoMemory>
        requires { is_some table ≡ is_some (table_asked (task_of command)) }
        ensures stands { IfOk result (λ done. IsSound T.meaning self.old
            → standing_of T.meaning self.new
            ≡ obeyed T.meaning (standing_of T.meaning self.old) (task_of command.entry) table) }
        ensures sound { IfOk result (λ done. IsSound T.meaning self.old → IsSound T.meaning self.new) }
        ensures fault { IfOk result (λ done. self.new.fault ≡ self.old.fault) }
    {
        let device = self.walk.number_for(command);
        self.ever.obey(alloc, command, device, table.as_ref())?;
        keep_table(&mut self.versions, alloc, command, device, table)?;
        self.walk.obey(command)
    }
}
