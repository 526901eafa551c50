use lab_advice::Remedy;
use lab_outline::{Outline, plain};
use lab_sector::NoMemory;
use lab_table::LIMIT;
use std::alloc::Global;

/// A limit of a bundle.
#[derive(Clone, Copy)]
struct Limit {
    /// How many there are.
    count: u64,
    /// How many there are at most.
    most: u64,
    /// What is counted.
    what: &'static str,
}

/// The remedy of a bundle that passes a limit: which one, and by how much.
pub fn limits_remedy(alloc: Global, outline: &Outline<'_>) -> Result<Remedy, NoMemory> {
    let limits = [
        limit_of(outline.tables.len() as u64, 64, "tables"),
        limit_of(outline.logs.len() as u64, 64, "logs"),
        limit_of(outline.commands.len() as u64, 1000, "script commands"),
        limit_of(count_of(outline, "create"), 32, "`create` lines"),
        limit_of(count_of(outline, "ram"), 16, "`ram` lines"),
        limit_of(sectors_of(outline), 65_536, "sectors on its memory disks"),
    ];
    for limit in &limits {
        if limit.most < limit.count {
            return passed(alloc, *limit);
        }
    }
    Remedy::told(
        alloc,
        "a bundle has at most 16 `ram` lines with 65536 sectors in all, 32 `create` lines, 64 tables, 64 logs and 1000 \
         script commands",
    )
}

/// A limit of so many.
fn limit_of(count: u64, most: u64, what: &'static str) -> Limit {
    Limit { count, most, what }
}

/// What is told of a limit that is passed.
fn passed(alloc: Global, limit: Limit) -> Result<Remedy, NoMemory> {
    let Limit { count, most, what } = limit;
    let more = count.saturating_sub(most);
    let why = format!(in alloc;
        "the bundle has {count} {what}, {more} more than the limit: a bundle has at most {most}"
    )?;
    Ok(Remedy::of(alloc, why))
}

/// How many commands have this verb.
fn count_of(outline: &Outline<'_>, verb: &str) -> u64 {
    let mut count = 0u64;
    for command in &outline.commands {
        if command.word(0) == verb {
            count = count.saturating_add(1);
        }
    }
    count
}

/// How many sectors the disks have together.
fn sectors_of(outline: &Outline<'_>) -> u64 {
    let mut sectors = 0u64;
    for command in &outline.commands {
        if command.word(0) == "ram" {
            sectors = sectors.saturating_add(plain(command.word(2)).unwrap_or(0));
        }
    }
    sectors
}

/// The remedy of a bundle whose runs are too long.
pub fn budget_remedy(alloc: Global) -> Result<Remedy, NoMemory> {
    let why = format!(in alloc;
        "a run of it could take more than {LIMIT} steps, or finding its budget more than as many pieces: take fewer \
         log lines, or a stack of fewer devices or of fewer lines"
    )?;
    Ok(Remedy::of(alloc, why))
}
