ghost use Rattle.std.specs.Prelude.{◌≡◌, IfOk};
ghost use Rattle.lab_script.specs.Script.{script_rows};
ghost use Rattle.lab_script.specs.Walk as walk;

use super::command::Script;
use super::orders::push_orders;
use super::walk::Walk;
use lab_model::Micro;
use lab_sector::NoMemory;
use std::alloc::Global;

/// The micro-commands of a script's commands, in order. A command on a name that no device has
/// gives none. After a create of a name in use the name stands for the new device. Devices and
/// versions are numbered in 32 bits: a script with more of them is refused as memory is.
pub fn compile(alloc: Global, script: &Script<'_>) -> Result<Vec<Micro>, NoMemory>
    ensures { IfOk result (λ micros. micros.items
        ≡ walk.micros_of (script_rows script.now.lines.items)) }
{
    let mut walk = Walk::new(alloc);
    let mut micros = Vec::new(alloc);
    for line in &script.lines {
        let device = walk.device_for(line.command);
        let made = walk.made()?;
        push_orders(&mut micros, alloc, line, device, made)?;
        walk.obey(line.command)?;
    }
    Ok(micros)
}
