ghost use Rattle.std.specs.Prelude.{◌≡◌};
ghost use Rattle.lab_model.specs.MapEffect.{fails, judgement, table_judged};
ghost use Rattle.lab_model.specs.Tables.{placed};
ghost use Rattle.lab_effect.specs.Mapping.{FitsLine};

use lab_model::{Piece, TableLine};
use lab_sector::{Kind, Span};
use lab_table::Table;
use lab_target::{Target, Verdict};
use std::marker::Model;

/// A piece, its sectors as its line counts them, and what the line does with it.
#[derive(Debug, Drop)]
pub(crate) struct Judgement {
    pub(crate) piece: Piece,
    pub(crate) span: Span,
    pub(crate) verdict: Verdict,
}

impl Model for Judgement {
    ghost use Rattle.lab_target.specs.Laws.{Bounded};
    ghost use Rattle.lab_model.specs.MapEffect.{Judgement as Judged};

    ghost Value = { Judged };

    ghost view = { λ j. record { piece = j.piece; span = j.span; verdict = j.verdict } };

    ghost invariant = { λ j. Bounded j.verdict };
}

/// A piece judged by its line of a table.
#[tactic(auto, using(std::proofs::lemmas::Option::slice_get_within, std::proofs::lemmas::Option::get_or_from_slice_get))]
pub(crate) fn judge_piece<T: Target>(
    table: &mut Table<T>,
    kind: Kind,
    now: u64,
    piece: Piece,
) -> Judgement
    requires { FitsLine kind table.old piece }
    ensures judgement { result ≡ judgement T.meaning kind now table.old piece }
    ensures table { table.new ≡ table_judged T.meaning kind now table.old piece }
{
    let span = placed(kind, &table.lines()[piece.line], piece.span);
    let verdict = table.judge(piece.line, kind, span, now);
    Judgement {
        piece,
        span,
        verdict,
    }
}

/// Sectors of the device as the line counts them; a flush's empty piece stays as it is.
fn placed<T: Target>(kind: Kind, line: &TableLine<T>, span: Span) -> Span
    ensures { result ≡ placed kind line.now span }
{
    match kind {
        Kind::Flush => span,
        Kind::Read | Kind::Write | Kind::Trim => Span {
            first: span.first.saturating_sub(line.start),
            len: span.len,
        },
    }
}

/// Whether a piece fails.
#[inline(always)]
pub(crate) fn fails(verdict: Verdict) -> bool
    ensures { result ≡ fails verdict }
{
    matches!(verdict, Verdict::Fail)
}
