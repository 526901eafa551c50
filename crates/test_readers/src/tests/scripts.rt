use lab_model::Micro;
use lab_script::{ScriptLine, compile, read_script};
use std::alloc::Global;
use std::test::Fail;

/// Adds a line of a script: its number, and the command as `{:?}` prints it, names by their bytes.
fn push_command(alloc: Global, told: &mut Vec<u8>, line: &ScriptLine<'_>) -> Result<(), Fail> {
    let row = format!(in alloc; "{} {:?}\n", line.number, line.command)?;
    Ok(told.extend_from_slice(row.as_bytes())?)
}

/// The commands of a script, a line for each.
fn commands(alloc: Global, lines: &[ScriptLine<'_>]) -> Result<Vec<u8>, Fail> {
    let mut told = Vec::new(alloc);
    for line in lines {
        push_command(alloc, &mut told, line)?;
    }
    Ok(told)
}

/// Whether a script has these commands.
fn has_commands(alloc: Global, text: &[u8], wanted: &[u8]) -> Result<bool, Fail> {
    let script = read_script(alloc, text)?;
    let told = commands(alloc, script.lines.as_slice())?;
    Ok(told.as_slice() == wanted)
}

/// The micro-commands of a script.
fn compiled(alloc: Global, text: &[u8]) -> Result<Vec<Micro>, Fail> {
    let script = read_script(alloc, text)?;
    Ok(compile(alloc, &script)?)
}

/// Adds a micro-command: the script's line, and the order as `{:?}` prints it.
fn push_order(alloc: Global, told: &mut Vec<u8>, micro: &Micro) -> Result<(), Fail> {
    let row = format!(in alloc; "{} {:?}\n", micro.line, micro.order)?;
    Ok(told.extend_from_slice(row.as_bytes())?)
}

/// The orders of micro-commands, a line for each.
fn orders(alloc: Global, micros: &[Micro]) -> Result<Vec<u8>, Fail> {
    let mut told = Vec::new(alloc);
    for micro in micros {
        push_order(alloc, &mut told, micro)?;
    }
    Ok(told)
}

/// Whether a script has these orders.
fn has_orders(alloc: Global, text: &[u8], wanted: &[u8]) -> Result<bool, Fail> {
    let micros = compiled(alloc, text)?;
    let told = orders(alloc, micros.as_slice())?;
    Ok(told.as_slice() == wanted)
}

/// Every form of a command, with comments, blank lines and blanks between.
const FORMS: &[u8] = b"\
# disks
ram 007 65536

 create a t
create --notable b
create c --notable
reload a u
clear a
suspend a
resume a
message a 8  add \t4\x20
status a
table a
sleep 3600000000
replay
wait
remove a";

/// Its commands: `a` to `c` are the bytes 97 to 99, `t` is 116, and `u` is 117.
const FORMS_COMMANDS: &[u8] = b"\
2 Ram(7, 65536)
4 Create([97], Some([116]))
5 Create([98], None)
6 Create([99], None)
7 Load([97], [117])
8 Clear([97])
9 Suspend([97])
10 Resume([97])
11 Message([97], 8, [97, 100, 100, 32, 9, 52])
12 Status([97])
13 Table([97])
14 Sleep(3600000000)
15 Replay
16 Wait
17 Remove([97])
";

#[test]
fn every_form_of_a_command(rt: HostRuntime) -> Result<(), Fail> {
    assert!(rt; has_commands(rt.alloc(), FORMS, FORMS_COMMANDS)?);
    Ok(())
}

/// A suspend between commands that tell the device's state.
const SUSPEND: &[u8] = b"\
ram 0 8
create m t
replay
status m
suspend m
status m
resume m
";

/// Its orders.
const SUSPEND_ORDERS: &[u8] = b"\
2 Create(0, Some(0))
3 Replay
4 Status(0)
5 Begin(0)
5 Drained(0)
6 Status(0)
7 Swap(0)
";

/// A name that is given twice, once to a device that is there, and again after its removal.
const NAMES: &[u8] = b"\
create m t
create m --notable
load m u
resume m
resume m
suspend m
suspend m
load q u
remove m
status m
create m t
table m
clear m
";

/// Its orders.
const NAMES_ORDERS: &[u8] = b"\
1 Create(0, Some(0))
2 Create(1, None)
3 Load(1, 0)
4 Begin(1)
4 Drained(1)
4 Swap(1)
6 Begin(1)
6 Drained(1)
9 Remove(1)
11 Create(2, Some(0))
12 Table(2)
13 Clear(2)
";

/// Tables that are loaded again, and a message with blanks between its words.
const MESSAGE: &[u8] = b"create m t\nload m t\nload m t\nmessage m 7  add \t 0 \t";

/// Its orders: each load has its own version, and the message's words have one blank between.
const MESSAGE_ORDERS: &[u8] = b"\
1 Create(0, Some(0))
2 Load(0, 1)
3 Load(0, 2)
4 Message(0, 7, Text { bytes: [97, 100, 100, 32, 48] })
";

/// Whether the three scripts have their orders.
fn have_orders(alloc: Global) -> Result<bool, Fail> {
    Ok(
        has_orders(alloc, SUSPEND, SUSPEND_ORDERS)?
            && has_orders(alloc, NAMES, NAMES_ORDERS)?
            && has_orders(alloc, MESSAGE, MESSAGE_ORDERS)?,
    )
}

#[test]
fn the_orders_of_scripts(rt: HostRuntime) -> Result<(), Fail> {
    assert!(rt; have_orders(rt.alloc())?);
    Ok(())
}
