ghost use Rattle.std.specs.Prelude.{◌≡◌, ◌≢◌, All, IfOk, IfErr, Ok, Err};
ghost use Rattle.lab_text.specs.Words.{words_of};
ghost use Rattle.lab_script.specs.Script.{script_of, script_rows, declares};
ghost use Rattle.lab_script.specs.Task.{IsBounded};

use super::command::{Script, ScriptFault, ScriptLine};
use super::grammar::read_command;
use lab_text::{Lines, Words, is_blank, is_comment};
use std::alloc::Global;

/// Reads a script. Only the first bad line is told.
pub fn read_script<'a>(alloc: Global, text: &'a [u8]) -> Result<Script<'a>, ScriptFault>
    ensures read { IfOk result
        (λ script. script_of text.now ≡ Ok (script_rows script.lines.items)) }
    ensures bounded { IfOk result (λ script.
        All (λ line. IsBounded line.command) script.lines.items) }
    ensures fault { IfErr result (λ fault.
        fault ≢ ScriptFault.NoMemory → script_of text.now ≡ Err fault) }
{
    let mut lines = Vec::new(alloc);
    let mut number: u64 = 0;
    let mut may_declare = true;
    for line in Lines::new(text) {
        number += 1;
        if is_blank(line) || is_comment(line) {
            continue;
        }
        let declares = declares_disk(line);
        if declares && !may_declare {
            return Err(ScriptFault::BadLine(number));
        }
        may_declare = declares;
        let Some(command) = read_command(line) else {
            return Err(ScriptFault::BadLine(number));
        };
        lines.push(ScriptLine { number, command })?;
    }
    Ok(Script { lines })
}

/// Whether the line's first word is `ram`.
fn declares_disk(line: &[u8]) -> bool
    ensures { result ≡ declares (words_of line.now) }
{
    match Words::new(line).next() {
        Some(word) => word == b"ram".as_slice(),
        None => false,
    }
}
