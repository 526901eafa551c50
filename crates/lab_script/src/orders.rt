ghost use Rattle.std.specs.Prelude.{◌≡◌, ◌+◌, ◌<◌, ◌≤◌, ◌++◌, [], ◌∷◌, OnErr, OnOk, option_copied};
ghost use Rattle.std.specs.Prelude.{vec_capacity, vec_len};
ghost use Rattle.std.specs.Option.{option_map};
ghost use Rattle.lab_script.specs.Image.{known};
ghost use Rattle.lab_script.specs.Steps.{on_line};
ghost use Rattle.lab_script.specs.Task.{task_of};
ghost use Rattle.lab_script.specs.Walk as walk;

use super::command::{Command, ScriptLine};
use super::joined::joined;
use super::known::KnownDevice;
use lab_model::{Micro, Order, Text};
use lab_sector::NoMemory;
use std::alloc::Global;

/// The most micro-commands that one line gives: a resume that suspends first gives so many.
const MOST_OF_A_LINE: usize = 3;

/// Adds the micro-commands of a line's command. `device` is the one that the command is for, if its name stands for
/// one; a command for no device gives none. So many devices were made before. Room is made first, so where memory
/// runs out the list is as it was.
pub fn push_orders(
    micros: &mut Vec<Micro>,
    alloc: Global,
    line: &ScriptLine<'_>,
    device: Option<KnownDevice>,
    made: u32,
) -> Result<(), NoMemory>
    ensures ok { OnOk result (micros.new.items ≡ micros.old.items
        ++ on_line line.now.number
        (walk.orders_for (task_of line.now.command) (option_map known device) made)) }
    ensures err { OnErr result (micros.new.items ≡ micros.old.items) }
{
    micros.reserve(MOST_OF_A_LINE)?;
    match line.command {
        Command::Ram(_, _) => {}
        Command::Create(_, table) => {
            push(
                micros,
                line.number,
                Order::Create(made, first_version(table)),
            );
        }
        Command::Sleep(time) => push(micros, line.number, Order::Sleep(time)),
        Command::Replay => push(micros, line.number, Order::Replay),
        Command::Wait => push(micros, line.number, Order::Wait),
        _ => {
            if let Some(device) = device {
                push_for(micros, alloc, line, device)?;
            }
        }
    }
    Ok(())
}

/// Adds the micro-commands of a line's command for a device; none for a command that is for none. There is room for
/// them. Where there is none for a message's text, the list is as it was.
fn push_for(
    micros: &mut Vec<Micro>,
    alloc: Global,
    line: &ScriptLine<'_>,
    device: KnownDevice,
) -> Result<(), NoMemory>
    requires room { vec_len micros.old + 3 ≤ vec_capacity micros.old }
    ensures ok { OnOk result (micros.new.items ≡ micros.old.items
        ++ on_line line.now.number (walk.orders_on (task_of line.now.command) (known device))) }
    ensures err { OnErr result (micros.new.items ≡ micros.old.items) }
{
    let number = device.number;
    match line.command {
        Command::Load(_, _) => push(micros, line.number, Order::Load(number, device.versions)),
        Command::Clear(_) => push(micros, line.number, Order::Clear(number)),
        Command::Suspend(_) => push_suspend(micros, line.number, device),
        Command::Resume(_) => push_resume(micros, line.number, device),
        Command::Remove(_) => push(micros, line.number, Order::Remove(number)),
        Command::Message(_, sector, text) => {
            let text = Text::new(joined(alloc, text)?);
            push(micros, line.number, Order::Message(number, sector, text));
        }
        Command::Status(_) => push(micros, line.number, Order::Status(number)),
        Command::Table(_) => push(micros, line.number, Order::Table(number)),
        _ => {}
    }
    Ok(())
}

/// A running device drains, and then it is suspended. Of room for three micro-commands that leaves room for one.
fn push_suspend(micros: &mut Vec<Micro>, line: u64, device: KnownDevice)
    requires room { vec_len micros.old + 3 ≤ vec_capacity micros.old }
    ensures items { micros.new.items
        ≡ micros.old.items ++ on_line line (walk.suspend_steps (known device)) }
    ensures room { vec_len micros.new < vec_capacity micros.new }
{
    if device.slot.is_suspended() {
        return;
    }
    push(micros, line, Order::Begin(device.number));
    push(micros, line, Order::Drained(device.number));
}

/// A suspended device runs again, by its inactive table if it has one. A running device that has one is suspended for
/// it first. There is room for all three.
fn push_resume(micros: &mut Vec<Micro>, line: u64, device: KnownDevice)
    requires room { vec_len micros.old + 3 ≤ vec_capacity micros.old }
    ensures { micros.new.items
        ≡ micros.old.items ++ on_line line (walk.resume_steps (known device)) }
{
    if !device.slot.is_suspended() {
        if device.slot.inactive.is_none() {
            return;
        }
        push_suspend(micros, line, device);
    }
    push(micros, line, Order::Swap(device.number));
}

/// Adds one micro-command of a line, for which there is room.
fn push(micros: &mut Vec<Micro>, line: u64, order: Order)
    requires room { vec_len micros.old < vec_capacity micros.old }
    ensures items { micros.new.items ≡ micros.old.items ++ on_line line (order ∷ []) }
    ensures len { vec_len micros.new ≡ vec_len micros.old + 1 }
    ensures capacity { vec_capacity micros.new ≡ vec_capacity micros.old }
{
    micros.push_reserved(Micro { line, order });
}

/// The version that a new device has live, if it has a table.
fn first_version(table: Option<&[u8]>) -> Option<u32>
    ensures { result ≡ option_map (λ _. 0) (option_copied table.entry) }
{
    match table {
        Some(_) => Some(0),
        None => None,
    }
}
