ghost use Rattle.std.specs.Prelude.{◌≡◌, IfSome, slice_get};
ghost use Rattle.lab_model.specs.Lists.{change};
ghost use Rattle.lab_state.specs.HeldRows.{HasRoom, place_at, place_of as place_among};
ghost use Rattle.lab_state.specs.HeldRows.{with_kind, without_kind};

use lab_bios::{Bio, Bios, Parent, Stage};
use lab_sector::Kind;
use lab_target::Held;

/// For a piece of which line of which device a bio of a kind is held.
#[derive(Clone, Copy)]
pub(crate) struct HeldPlace {
    pub(crate) device: u32,
    pub(crate) line: usize,
    pub(crate) kind: Kind,
}

/// Where a bio is held, if it is.
#[inline(always)]
fn place_at(bio: &Bio) -> Option<HeldPlace>
    ensures { result ≡ place_at bio.now.kind bio.now.parent bio.now.stage }
{
    match (bio.parent, &bio.stage) {
        (Parent::FromBio(_, piece), Stage::Held(_, holder)) => Some(HeldPlace {
            device: *holder,
            line: piece.line,
            kind: bio.kind,
        }),
        _ => None,
    }
}

/// Where the bio of this number is held, if it lives and is held.
#[inline(always)]
pub(crate) fn place_of(bios: &Bios, number: u64) -> Option<HeldPlace>
    ensures { result ≡ place_among bios.now.items number }
{
    place_at(bios.get(number)?)
}

/// One bio more of a kind is counted at a line, if the row has it.
pub(crate) fn raise_in(row: &mut Vec<Held>, line: usize, kind: Kind)
    requires { IfSome (slice_get row.old.items line) HasRoom }
    ensures { row.new.items ≡ change row.old.items line (with_kind kind) }
{
    if line < row.len() {
        raise(&mut row[line], kind);
    }
}

/// One bio less of a kind is counted at a line, if the row has it.
pub(crate) fn lower_in(row: &mut Vec<Held>, line: usize, kind: Kind)
    ensures { row.new.items ≡ change row.old.items line (without_kind kind) }
{
    if line < row.len() {
        lower(&mut row[line], kind);
    }
}

/// One bio more of a kind is counted.
fn raise(counts: &mut Held, kind: Kind)
    requires { HasRoom counts.old }
    ensures { counts.new ≡ with_kind kind counts.old }
{
    match kind {
        Kind::Read => counts.reads += 1,
        Kind::Write | Kind::Trim => counts.writes += 1,
        Kind::Flush => counts.flushes += 1,
    }
}

/// One bio less of a kind is counted, if any was.
fn lower(counts: &mut Held, kind: Kind)
    ensures { counts.new ≡ without_kind kind counts.old }
{
    match kind {
        Kind::Read => counts.reads = counts.reads.saturating_sub(1),
        Kind::Write | Kind::Trim => counts.writes = counts.writes.saturating_sub(1),
        Kind::Flush => counts.flushes = counts.flushes.saturating_sub(1),
    }
}
