ghost use Rattle.std.specs.Prelude.{◌≡◌, ◌≤◌, ◌<◌, ◌↔◌, ◌++◌, ◌∷◌, [], Contains, OnErr, OnOk, map, nat_lt};
ghost use Rattle.std.specs.Prelude.{option_copied};
ghost use Rattle.std.specs.List.{list_any};
ghost use Rattle.lab_logs.specs.Agenda.{dues};
ghost use Rattle.lab_logs.specs.Lines.{CanTake, unanswered};
ghost use Rattle.lab_model.specs.LogEffect.{after_line, wait_of, next_line};
ghost use Rattle.lab_logs.specs.Moments.{least_over};
ghost use Rattle.lab_model.specs.Answers.{with_answer};
ghost use Rattle.lab_model.specs.ControlEffect.{starting};
ghost use Rattle.lab_model.specs.Lists.{change_numbered, numbered};

use crate::agenda::{Agenda, Due};
use crate::lines::{next_line, take_entry};
use crate::log_state::LogState;
use crate::moments::lesser;
use lab_model::{Answer, Entry};
use lab_sector::{DevNo, NoMemory};
use std::alloc::Global;
use std::marker::Model;

/// How far each log of a run has come. Logs are numbered from 1.
#[derive(Drop)]
pub struct Logs {
    items: Vec<LogState>,
    /// When each of them is due, the earliest first.
    agenda: Agenda,
}

impl Model for Logs {
    ghost use Rattle.std.specs.Prelude.{List};
    ghost use Rattle.std.specs.List.Sorted.{IsPermutation};
    ghost use Rattle.lab_logs.specs.Agenda.{dues};
    ghost use Rattle.lab_model.specs.State.{LogState as Log};

    ghost Value = { List Log };

    ghost view = { λ logs. logs.items.items };

    ghost invariant = { λ logs. IsPermutation (dues logs.items.items) logs.agenda };
}

impl Logs {
    /// No logs.
    pub fn new(alloc: Global) -> Logs
        ensures { result ≡ [] }
    {
        Logs {
            items: Vec::new(alloc),
            agenda: Agenda::new(alloc),
        }
    }

    /// The next number gets a log.
    #[tactic(auto, using(crate::proofs::Rulesets::push))]
    pub fn push(&mut self, log: LogState) -> Result<(), NoMemory>
        ensures ok { OnOk result (self.new ≡ self.old ++ log ∷ []) }
        ensures err { OnErr result (self.new ≡ self.old) }
    {
        let Ok(number) = u32::try_from(self.items.len() + 1) else {
            return Err(NoMemory);
        };
        self.items.reserve(1)?;
        self.agenda.add(Due {
            moment: log.moment,
            log: number,
        })?;
        self.items.push_reserved(log);
        Ok(())
    }

    /// The logs by number.
    pub fn as_slice(&self) -> &[LogState]
        ensures { result.now ≡ self.now }
    {
        self.items.as_slice()
    }

    /// The log of this number.
    #[inline(always)]
    pub fn get(&self, number: u32) -> Option<&LogState>
        ensures { option_copied result ≡ numbered self.now number }
    {
        self.items.get((number as usize).checked_sub(1)?)
    }

    /// The least of another moment and those of the logs that are later than now, in microseconds. It is searched for in
    /// the order of the logs' moments; the logs themselves are not looked at.
    pub fn least_after(&self, now: u64, other: Option<u64>) -> Option<u64>
        ensures { result ≡ least_over now (map (λ log. log.moment) self.now) other }
    {
        match self.agenda.first_after(now) {
            Some(due) => lesser(now, due.moment, other),
            None => other,
        }
    }

    /// Whether the moment of a log lies ahead. The last in the order of their moments is asked, and no other.
    pub fn is_one_ahead(&self, now: u64) -> bool
        ensures { result ≡ list_any (λ log. nat_lt now log.moment) self.now }
    {
        self.agenda.is_one_ahead(now)
    }

    /// The logs whose moment is later than one and has come by another, both in microseconds. Only these are looked at.
    pub fn due(&self, since: u64, now: u64) -> &[Due]
        ensures { (due : Due) → Contains result.now due
            ↔ (Contains (dues self.now) due × (since < due.moment) × (due.moment ≤ now)) }
    {
        self.agenda.between(since, now)
    }

    /// Each log starts at this moment, in microseconds.
    #[tactic(auto, using(crate::proofs::Rulesets::logs_start))]
    pub fn start(&mut self, now: u64)
        ensures { self.new ≡ map (starting now) self.old }
    {
        start_logs(&mut self.items, now);
        self.agenda.start(now);
    }

    /// The log of this number takes the line of an operation.
    pub fn take_line(&mut self, number: u32)
        requires { CanTake self.old number 0 }
        ensures { self.new ≡ change_numbered self.old number next_line }
    {
        if let Some(place) = (number as usize).checked_sub(1) {
            if let Some(log) = self.items.get_mut(place) {
                next_line(log);
            }
        }
    }

    /// The log of this number takes a line that isn't an operation, or the line of one.
    pub fn take_entry(
        &mut self,
        number: u32,
        device: Option<DevNo>,
        entry: &Entry,
    ) -> Result<(), NoMemory>
        requires { CanTake self.old number (wait_of entry.now) }
        ensures next { OnOk result (self.new ≡ change_numbered self.old number
            (λ log. after_line device entry.now (next_line log))) }
        ensures err { OnErr result (self.new ≡ self.old) }
    {
        let Some(place) = (number as usize).checked_sub(1) else {
            return Ok(());
        };
        let Some(log) = self.items.get_mut(place) else {
            return Ok(());
        };
        let due = Due {
            moment: log.moment,
            log: number,
        };
        take_entry(log, device, entry)?;
        let moment = log.moment;
        if moment > due.moment {
            self.agenda.postpone(due, moment);
        }
        Ok(())
    }

    /// The log of this number, if it is there, gets one answer more.
    pub fn answer(&mut self, number: u32, answer: Answer) -> Result<(), NoMemory>
        ensures ok { OnOk result (self.new ≡ change_numbered self.old number
            (with_answer answer.line answer.action answer.outcome)) }
        ensures err { OnErr result (self.new ≡ self.old) }
    {
        let Some(place) = (number as usize).checked_sub(1) else {
            return Ok(());
        };
        let Some(log) = self.items.get_mut(place) else {
            return Ok(());
        };
        add_answer(log, answer)
    }

    /// The log of this number, if it is there, loses its last answer.
    pub fn take_back(&mut self, number: u32)
        ensures { self.new ≡ change_numbered self.old number unanswered }
    {
        if let Some(place) = (number as usize).checked_sub(1) {
            if let Some(log) = self.items.get_mut(place) {
                drop_answer(log);
            }
        }
    }
}

/// The log gets one answer more.
fn add_answer(log: &mut LogState, answer: Answer) -> Result<(), NoMemory>
    ensures ok { OnOk result
        (log.new ≡ with_answer answer.line answer.action answer.outcome log.old) }
    ensures err { OnErr result (log.new ≡ log.old) }
    ensures moment { log.new.moment ≡ log.old.moment }
{
    log.answers.push(answer)?;
    Ok(())
}

/// The log loses its last answer.
fn drop_answer(log: &mut LogState)
    ensures { log.new ≡ unanswered log.old }
{
    log.answers.pop();
}

/// Each log starts at this moment.
fn start_logs(logs: &mut Vec<LogState>, now: u64)
    ensures { logs.new.items ≡ map (starting now) logs.old.items }
{
    for log in logs.iter_mut() {
        start_log(log, now);
    }
}

/// A log starts at this moment.
fn start_log(log: &mut LogState, now: u64)
    ensures { log.new ≡ starting now log.old }
{
    log.moment = now;
}
