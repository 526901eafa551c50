ghost use Rattle.std.specs.Prelude.{◌≡◌, [], ◌∷◌, ◌++◌, All, IfOk, IsOk, map};
ghost use Rattle.lab_text.specs.Bundle.{part_of};
ghost use Rattle.lab_iolog.specs.Log.{log_of_lines};
ghost use Rattle.lab_script.specs.Script.{script_of, script_rows};
ghost use Rattle.lab_budget.specs.Counted.{told_budget};
ghost use Rattle.lab_rulebook.specs.Limits.{WithinLimits};
ghost use Rattle.lab_rulebook.specs.Parts.{Parts};
ghost use Rattle.lab_rulebook.specs.ScriptRules.{EndBreaks};
ghost use Rattle.lab_model.specs.declared.rule.Rule.TheVariants.{V7, V10};
ghost use Rattle.lab_rulebook.specs.Standing.{nothing};
ghost use Rattle.lab_rulebook.specs.Walked.{rest_micros};
ghost use Rattle.lab_table.specs.TableText.{each_known};
ghost use Rattle.lab_rulebook.specs.PartsOf.{log_part as text_log, table_of_lines, texts_of};
ghost use Rattle.lab_refusal.specs.Faults.{bundle_told, told_by};
ghost use Rattle.lab_refusal.specs.Refusals.{RefusesTold};
ghost use Rattle.lab_standing.specs.Image.{text_of};
ghost use Rattle.lab_standing.specs.Stands.{standing_of};
ghost use Rattle.lab_model.specs.declared.phase.Phase.TheVariants.{Before};
ghost use Rattle.lab_rule_checks.specs.Least.{TellsFirst};
ghost use Rattle.lab_verify.specs.Counted.{counted_parts};
ghost use Rattle.lab_verify.specs.NamedLogs.{named_log_part};
ghost use Rattle.lab_verify.specs.Steps.{HasReadParts};
ghost use Rattle.lab_verify.specs.Verdict.{IsVerdict};
ghost use Rattle.lab_verify.specs.Walks.{AwaitsBudget, BudgetTells, WalkTells, scenario_seen};

use crate::limits::check_limits;
use crate::parts::{NamedLog, read_commands, read_logs, read_tables};
use crate::walk::step;
use lab_budget::budget;
use lab_model::Micro;
use lab_refusal::{PartName, Refusal, Rule};
use lab_rule_checks::broken_end;
use lab_rulebook::Accepted;
use lab_script::Script;
use lab_sector::NoMemory;
use lab_standing::{NamedTable, Standing};
use lab_table::{LIMIT, Scenario};
use lab_target::Target;
use lab_text::{Bundle, BundleFault};
use std::alloc::Global;

/// The refusal of a bundle that can't be read.
pub fn refusal_of(fault: BundleFault) -> Refusal<'static>
    ensures { told_by result ≡ bundle_told fault }
{
    Refusal::from(fault)
}

/// Accepts a bundle as a scenario, or refuses it by its first fault: the tables, the script and the logs as they
/// are read, the limits, the script line by line, its end, the logs line by line, and last the budget. It accepts
/// what the definitions accept, and only that; nothing is said where memory runs out.
#[tactic(auto, using(crate::proofs::Rulesets::verify))]
pub fn verify<'a, T: Target>(alloc: Global, bundle: &Bundle<'a>) -> Result<Accepted<T>, Refusal<'a>>
    ensures { IsVerdict T.meaning (texts_of bundle.now) result }
{
    let tables = read_tables(alloc, bundle)?;
    verify_rest(alloc, bundle, &tables)
}

/// Accepts a bundle whose tables were read, or refuses it by its first other fault.
#[tactic(auto, using(crate::proofs::Rulesets::verify_rest))]
fn verify_rest<'a, T: Target>(
    alloc: Global,
    bundle: &Bundle<'a>,
    tables: &[NamedTable<'a, T>],
) -> Result<Accepted<T>, Refusal<'a>>
    requires tables { map part_of bundle.now.tables.items ≡ map text_of tables.now }
    requires readable { All (λ text. IsOk (table_of_lines T.meaning each_known text.1))
        (map part_of bundle.now.tables.items) }
    ensures { IsVerdict T.meaning (texts_of bundle.now) result }
{
    let script = read_commands(alloc, bundle)?;
    let mut logs = read_logs(alloc, bundle)?;
    check_limits(bundle, &script)?;
    judge(alloc, bundle, tables, &script, &mut logs)
}

/// Accepts what was read of a bundle, within the limits, or refuses it by its first fault: the script line by line,
/// its end, the logs line by line, and last the budget.
fn judge<'a, T: Target>(
    alloc: Global,
    bundle: &Bundle<'a>,
    tables: &[NamedTable<'a, T>],
    script: &Script<'a>,
    logs: &mut Vec<NamedLog<'a>>,
) -> Result<Accepted<T>, Refusal<'a>>
    requires tables { map part_of bundle.now.tables.items ≡ map text_of tables.now }
    requires tables_readable { All (λ text. IsOk (table_of_lines T.meaning each_known text.1))
        (map part_of bundle.now.tables.items) }
    requires script { script_of bundle.now.script.now ≡ Ok (script_rows script.now.lines.items) }
    requires logs { map text_log (map part_of bundle.now.logs.items)
        ≡ map named_log_part logs.old.items }
    requires readable { All (λ text. IsOk (log_of_lines text.1))
        (map part_of bundle.now.logs.items) }
    requires limits { WithinLimits (counted_parts bundle.now script.now) }
    ensures { IsVerdict T.meaning (texts_of bundle.now) result }
{
    let mut micros = Vec::new(alloc);
    let standing = walk(alloc, tables, logs, script, &mut micros)?;
    if let Err(refusal) = check_end(&standing) {
        drop(standing);
        return Err(refusal);
    }
    if let Some(fault) = standing.fault {
        drop(standing);
        return Err(fault);
    }
    accept(alloc, standing, micros)
}

/// What stands after the script, which is checked line by line; its micro-commands are added.
fn walk<'a, T: Target>(
    alloc: Global,
    tables: &[NamedTable<'a, T>],
    logs: &mut Vec<NamedLog<'a>>,
    script: &Script<'a>,
    micros: &mut Vec<Micro>,
) -> Result<Standing<'a, T>, Refusal<'a>>
    ensures told { (parts : Parts T) → HasReadParts T.meaning parts tables.now logs.old.items Before
        → parts.script ≡ script_rows script.now.lines.items → WalkTells T.meaning parts result }
    ensures micros { (parts : Parts T)
        → HasReadParts T.meaning parts tables.now logs.old.items Before
        → parts.script ≡ script_rows script.now.lines.items
        → IfOk result (λ standing. micros.new.items
        ≡ micros.old.items ++ rest_micros T.meaning parts nothing parts.script) }
{
    let mut standing = Standing::new(alloc);
    for line in &script.lines {
        if let Err(refusal) = step(&mut standing, alloc, tables, logs, micros, line) {
            drop(standing);
            return Err(refusal);
        }
    }
    Ok(standing)
}

/// At the script's end, V7, then V10.
fn check_end<'a, T: Target>(standing: &Standing<'a, T>) -> Result<(), Refusal<'a>>
    ensures { (parts : Parts T) → RefusesTold (TellsFirst
        (EndBreaks T.meaning parts (standing_of T.meaning standing.now)) (V7 ∷ V10 ∷ [])) 0 result }
{
    match broken_end(standing) {
        Some(rule) => Err(Refusal::script(0, rule)),
        None => Ok(()),
    }
}

/// The scenario, if its budget isn't too great.
fn accept<'a, T: Target>(
    alloc: Global,
    standing: Standing<'a, T>,
    micros: Vec<Micro>,
) -> Result<Accepted<T>, Refusal<'a>>
    requires { AwaitsBudget T.meaning (scenario_seen (standing_of T.meaning standing) micros.items) }
    ensures { BudgetTells T.meaning (scenario_seen (standing_of T.meaning standing.entry) micros.items) result }
{
    let Standing {
        disks,
        versions,
        logs,
        ..
    } = standing;
    let scenario = Scenario {
        sizes: disks,
        versions,
        lines: logs,
        micros,
    };
    match budget(alloc, &scenario.plan()) {
        Ok(budget) => hand_over(scenario, budget),
        Err(NoMemory) => {
            drop(scenario);
            Err(Refusal::NoMemory)
        }
    }
}

/// A scenario whose budget is this one is handed over, if that isn't too great.
fn hand_over<'a, T: Target>(scenario: Scenario<T>, budget: u64) -> Result<Accepted<T>, Refusal<'a>>
    requires awaits { AwaitsBudget T.meaning scenario }
    requires budget { budget ≡ told_budget T.meaning scenario }
    ensures { BudgetTells T.meaning scenario result }
{
    if budget > LIMIT {
        drop(scenario);
        return Err(Refusal::at(PartName::Budget, 0, Rule::V15));
    }
    Ok(Accepted::new(scenario, budget))
}
