ghost use Rattle.std.specs.Prelude.{◌≡◌, false, List, [], ◌∷◌, ◌++◌, ◌||◌, IfOk, IfErr, OnOk, OnErr};
ghost use Rattle.std.specs.List.{filter_map};
ghost use Rattle.lab_text.specs.Lines.{lines_of};
ghost use Rattle.lab_text.specs.Bundle.{Line, Title, is_same_title, as_script, HasParts};
ghost use Rattle.lab_text.specs.Reading.{title};
ghost use Rattle.lab_text.specs.Drafts.{DraftHas, has_title, is_seen};
ghost use Rattle.lab_text.specs.declared.heading.Heading.{Heading};

use super::bundle::{Bundle, BundleFault, Part};
use super::heading::Heading;
use lab_sector::NoMemory;
use std::alloc::Global;
use std::collections::HashSet;

/// A bundle while it is read: its parts so far, and their headings.
#[derive(Drop)]
pub struct Draft<'a> {
    seen: HashSet<Heading<'a>>,
    tables: Vec<Part<'a>>,
    script: Option<&'a [u8]>,
    logs: Vec<Part<'a>>,
    history: Option<&'a [u8]>,
}

impl<'a> Draft<'a> {
    /// No part yet.
    pub fn new(alloc: Global) -> Draft<'a>
        ensures { DraftHas result [] }
    {
        Draft {
            seen: HashSet::new(alloc),
            tables: Vec::new(alloc),
            script: None,
            logs: Vec::new(alloc),
            history: None,
        }
    }

    /// Whether there is a part of that heading.
    pub fn is_opened(&self, heading: Heading<'a>) -> bool
        ensures { (parts : List (Title × List Line)) → DraftHas self.now parts
            → result ≡ has_title (title heading.entry) parts }
    {
        self.seen.contains(&heading)
    }

    /// Adds the part of a heading that there is none of yet.
    pub fn add(&mut self, heading: Heading<'a>, text: &'a [u8]) -> Result<(), NoMemory>
        ensures { OnOk result ((parts : List (Title × List Line)) → DraftHas self.old parts
            → has_title (title heading.entry) parts ≡ false
            → DraftHas self.new (parts ++ (title heading.entry, lines_of text.now) ∷ [])) }
    {
        note(&mut self.seen, heading)?;
        match heading {
            Heading::Table(name) => self.tables.push(Part { name, text })?,
            Heading::Script => self.script = Some(text),
            Heading::Log(name) => self.logs.push(Part { name, text })?,
            Heading::History => self.history = Some(text),
        }
        Ok(())
    }

    /// The bundle, if it has a script.
    pub fn finish(self) -> Result<Bundle<'a>, BundleFault>
        ensures parts { IfOk result (λ bundle.
            (parts : List (Title × List Line)) → DraftHas self.entry parts
            → HasParts bundle parts) }
        ensures fault { IfErr result (λ fault. fault ≡ BundleFault.NoScript) }
        ensures no_script { OnErr result (
            (parts : List (Title × List Line)) → DraftHas self.entry parts
            → filter_map as_script parts ≡ []) }
    {
        let Draft {
            seen: _,
            tables,
            script,
            logs,
            history,
        } = self;
        let script = script.ok_or(BundleFault::NoScript)?;
        Ok(Bundle {
            tables,
            script,
            logs,
            history,
        })
    }
}

/// Adds the heading to those that were seen.
#[tactic(auto, using(crate::proofs::Rulesets::note))]
fn note<'a>(seen: &mut HashSet<Heading<'a>>, heading: Heading<'a>) -> Result<(), NoMemory>
    ensures { OnOk result ((other : Heading) → is_seen other seen.new
        ≡ (is_same_title (title heading.entry) (title other) || is_seen other seen.old)) }
{
    let _added = seen.insert(heading)?;
    Ok(())
}
