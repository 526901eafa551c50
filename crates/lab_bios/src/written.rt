ghost use Rattle.std.specs.Prelude.{◌≡◌, IfOk, IfSome, OnOk, Some, [], length, true};
ghost use Rattle.lab_model.specs.Sectors.{Sectors as Bytes, filled, marked_by, part};
ghost use Rattle.lab_bios.specs.Written.{changed_by};

use crate::sectors::{Sectors, filled, mark_by};
use lab_sector::{NoMemory, SECTOR_BYTES, Span};
use lab_target::Mark;
use std::alloc::Global;
use std::marker::Model;

/// What a write writes: sectors of one byte, but for the bytes that marks have changed on the way. It takes memory for
/// those alone.
#[derive(Debug, Drop)]
pub struct Written {
    form: Form,
}

/// How the sectors are kept: in a box only once a mark has changed one of them, since few writes are marked.
#[derive(Debug, Drop)]
enum Form {
    /// This byte in so many sectors.
    Filled(u8, u64),
    /// Such sectors with changes.
    Changed(Box<Changes>),
}

/// Sectors of one byte, and the marks that have changed bytes of them.
#[derive(Debug, Drop)]
struct Changes {
    byte: u8,
    count: u64,
    /// In the order in which they were made, counted from the first sector's first byte.
    marks: Vec<Mark>,
}

impl Model for Written {
    ghost use Rattle.lab_bios.specs.Written.{sectors_of};
    ghost use Rattle.lab_model.specs.Sectors.{Sectors};

    ghost Value = { Sectors };

    ghost view = { λ written. sectors_of written.form };
}

impl Written {
    /// No sectors.
    #[inline]
    pub fn none(alloc: Global) -> Written
        ensures { result ≡ [] }
    {
        Written::of(alloc, 0, 0)
    }

    /// So many sectors of one byte.
    #[inline]
    pub fn of(_alloc: Global, count: u64, byte: u8) -> Written
        ensures { result ≡ filled count byte }
    {
        Written {
            form: Form::Filled(byte, count),
        }
    }

    /// The sectors of a span, in order; those that are there, where it ends past them.
    pub fn part(&self, alloc: Global, span: Span) -> Result<Written, NoMemory>
        ensures { IfOk result (λ out. out ≡ part self.now span) }
    {
        match &self.form {
            Form::Filled(byte, count) => Ok(filled_part(alloc, *count, *byte, span)),
            Form::Changed(changes) => changes.part(alloc, span),
        }
    }

    /// The byte that all of them have, where no mark has changed any.
    #[inline]
    pub fn fill(&self) -> Option<u8>
        ensures { IfSome result (λ byte. self.now ≡ filled (length self.now) byte) }
    {
        match &self.form {
            Form::Filled(byte, _) => Some(*byte),
            Form::Changed(_) => None,
        }
    }

    /// Whether both are kept in the same way, so that no byte of theirs differs.
    #[inline]
    pub(crate) fn is_alike(&self, other: &Written) -> bool
        ensures { result ≡ true → self.now ≡ other.now }
    {
        match (&self.form, &other.form) {
            (Form::Filled(byte, count), Form::Filled(its_byte, its_count)) => {
                byte == its_byte && count == its_count
            }
            (Form::Changed(changes), Form::Changed(its)) => changes.is_alike(its),
            _ => false,
        }
    }

    /// The sectors with their bytes.
    pub fn sectors(&self, alloc: Global) -> Result<Sectors, NoMemory>
        ensures { IfOk result (λ out. out.items ≡ self.now) }
    {
        match &self.form {
            Form::Filled(byte, count) => filled(alloc, *count, *byte),
            Form::Changed(changes) => changes.sectors(alloc),
        }
    }

    /// A marked byte, if there is one, is replaced; its place is counted from the first sector's first byte.
    pub(crate) fn change(&mut self, alloc: Global, mark: Option<Mark>) -> Result<(), NoMemory>
        ensures { OnOk result (self.new ≡ marked_by mark self.old) }
    {
        let Some(mark) = mark else {
            return Ok(());
        };
        match &mut self.form {
            Form::Filled(byte, count) => {
                let changes = Changes::first(alloc, *count, *byte, mark)?;
                self.form = Form::Changed(changes);
            }
            Form::Changed(changes) => changes.marks.push(mark)?,
        }
        Ok(())
    }
}

impl Changes {
    /// The first change of so many sectors of one byte.
    fn first(alloc: Global, count: u64, byte: u8, mark: Mark) -> Result<Box<Changes>, NoMemory>
        ensures { IfOk result (λ changes. changed_by changes.value
            ≡ marked_by (Some mark) (filled count byte)) }
    {
        let mut marks = Vec::new(alloc);
        marks.push(mark)?;
        Ok(Box::new(alloc, Changes { byte, count, marks })?)
    }

    /// Whether the sectors and their marks are those of another, in the same order.
    fn is_alike(&self, other: &Changes) -> bool
        ensures { result ≡ true → changed_by self.now ≡ changed_by other.now }
    {
        if self.byte != other.byte || self.count != other.count {
            return false;
        }
        self.marks == other.marks
    }

    /// The changed sectors of a span, in order; those that are there, where it ends past them.
    #[tactic(auto, using(crate::proofs::Rulesets::part))]
    fn part(&self, alloc: Global, span: Span) -> Result<Written, NoMemory>
        ensures { IfOk result (λ out. out ≡ part (changed_by self.now) span) }
    {
        let mut out = filled_part(alloc, self.count, self.byte, span);
        for mark in &self.marks {
            out.change(alloc, mark_within(span, Some(*mark)))?;
        }
        Ok(out)
    }

    /// The changed sectors with their bytes.
    fn sectors(&self, alloc: Global) -> Result<Sectors, NoMemory>
        ensures { IfOk result (λ out. out.items ≡ changed_by self.now) }
    {
        let mut sectors = filled(alloc, self.count, self.byte)?;
        for mark in &self.marks {
            mark_by(alloc, &mut sectors, Some(*mark))?;
        }
        Ok(sectors)
    }
}

/// The sectors of a span, of so many sectors of one byte.
#[tactic(auto, using(crate::proofs::Rulesets::filled_part))]
fn filled_part(alloc: Global, count: u64, byte: u8, span: Span) -> Written
    ensures { result ≡ part (filled count byte) span }
{
    let left = count.saturating_sub(span.first).min(span.len);
    Written::of(alloc, left, byte)
}

/// A mark of some sectors as it is counted in those of a span; none where it is in no sector of the span.
pub(crate) fn mark_within(span: Span, mark: Option<Mark>) -> Option<Mark>
    ensures { (sectors : Bytes)
        → marked_by result (part sectors span) ≡ part (marked_by mark sectors) span }
{
    let mark = mark?;
    let sector = mark.place / SECTOR_BYTES;
    if sector < span.first || sector - span.first >= span.len {
        return None;
    }
    Some(Mark {
        place: mark.place - span.first * SECTOR_BYTES,
        value: mark.value,
    })
}
