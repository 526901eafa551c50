ghost use Rattle.std.specs.Prelude.{◌≡◌, [], IfOk, OnOk};
ghost use Rattle.lab_sweep.specs.Searching.{AddsRun, SearchEnds, begun_text};
ghost use Rattle.lab_sweep.specs.Totals.{totals_of};

use crate::by_line::push_by_line;
use crate::found_row::push_row_names;
use crate::found_rows::push_found_rows;
use crate::line_counts::{LineCounts, count_run};
use crate::totals::{Totals, no_totals, totals_with};
use indexmap::IndexMap;
use lab_findings::Noted;
use lab_sector::NoMemory;
use lab_table::Scenario;
use lab_target::Target;
use std::alloc::Global;

/// What a search found.
#[derive(Debug, Drop)]
pub struct Searched {
    /// What is told of it.
    pub text: Vec<u8>,
    /// How much it is.
    pub totals: Totals,
}

/// A search while it goes from seed to seed.
#[derive(Drop)]
pub(crate) struct Searcher {
    /// The names of the columns and the rows so far; nothing where it is told by line.
    pub(crate) text: Vec<u8>,
    /// The counts by line so far, where it is told by line.
    pub(crate) counts: LineCounts,
    /// The totals so far.
    pub(crate) totals: Totals,
}

impl Searcher {
    /// Before the first seed.
    pub(crate) fn new(alloc: Global, by_line: bool) -> Result<Searcher, NoMemory>
        ensures text { IfOk result (λ searcher. searcher.text.items ≡ begun_text by_line) }
        ensures lines { IfOk result (λ searcher. searcher.counts.entries ≡ []) }
        ensures totals { IfOk result (λ searcher. searcher.totals ≡ totals_of []) }
    {
        let mut text = Vec::new(alloc);
        if !by_line {
            push_row_names(&mut text)?;
        }
        Ok(Searcher {
            text,
            counts: IndexMap::new(alloc),
            totals: no_totals(),
        })
    }

    /// Takes what was noted in the run by a seed.
    pub(crate) fn add_run<T: Target>(
        &mut self,
        alloc: Global,
        scenario: &Scenario<T>,
        seed: u64,
        noted: &[Noted],
        by_line: bool,
    ) -> Result<(), NoMemory>
        ensures { OnOk result (AddsRun scenario.now by_line seed noted.now self.old self.new) }
    {
        self.totals = totals_with(self.totals, noted)?;
        if by_line {
            count_run(&mut self.counts, seed, noted)
        } else {
            push_found_rows(&mut self.text, alloc, scenario, seed, noted)
        }
    }

    /// What the search found, once its seeds are gone through.
    pub(crate) fn finish<T: Target>(
        self,
        alloc: Global,
        scenario: &Scenario<T>,
        by_line: bool,
    ) -> Result<Searched, NoMemory>
        ensures text { IfOk result (λ searched.
            SearchEnds scenario.now by_line self searched.text.items) }
        ensures totals { IfOk result (λ searched. searched.totals ≡ self.totals) }
    {
        let Searcher {
            mut text,
            counts,
            totals,
        } = self;
        if by_line {
            push_by_line(&mut text, alloc, scenario, totals.runs, &counts)?;
        }
        Ok(Searched { text, totals })
    }
}
