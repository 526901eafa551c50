ghost use Rattle.std.specs.Prelude.{◌≡◌, ◌≢◌, IfOk, IfErr, Ok, Err};
ghost use Rattle.lab_history.specs.History.{history_of};

use super::fault::HistoryFault;
use super::line::read_event;
use lab_model::Event;
use lab_text::{Lines, is_blank, is_comment};
use std::alloc::Global;

/// Reads the events of a history, in order. Blank lines and comments are skipped and counted, and
/// only the first bad line is told.
#[tactic(auto, using(crate::proofs::Rulesets::read_history))]
pub fn read_history(alloc: Global, text: &[u8]) -> Result<Vec<Event>, HistoryFault>
    ensures read { IfOk result (λ events. history_of text.now ≡ Ok events.items) }
    ensures fault { IfErr result (λ fault.
        fault ≢ HistoryFault.NoMemory → history_of text.now ≡ Err fault) }
{
    let mut events = Vec::new(alloc);
    let mut number: u64 = 0;
    for line in Lines::new(text) {
        number += 1;
        if is_blank(line) || is_comment(line) {
            continue;
        }
        let Some(event) = read_event(line) else {
            return Err(HistoryFault::BadLine(number));
        };
        events.push(event)?;
    }
    Ok(events)
}
