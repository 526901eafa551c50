ghost use Rattle.std.specs.Prelude.{◌≡◌, ◌+◌, ◌-◌, ◌*◌, ◌<◌, ◌≤◌, ◌==◌, ◌&&◌, nat_le, is_some, true};
ghost use Rattle.lab_target.specs.Laws.{greatest_sector};
ghost use Rattle.lab_flakey.specs.Flakey.{draw};
ghost use Rattle.lab_flakey.specs.Features.{fixed_mark, is_of_kind};
ghost use Rattle.lab_flakey.specs.Words.{drawn, pcg_words, seeded};

use crate::feature::Corruption;
use crate::rules::is_of_kind;
use lab_sector::{Kind, SECTOR_BYTES, Span};
use lab_target::Mark;
use rand_core::SeedableRng;
use rand_core::utils::NextWord;
use rand_pcg::Pcg32;

/// A certain chance.
pub const CERTAIN: u32 = 1_000_000_000;

/// The generator that a number seeds.
#[tactic(auto, unfolding(crate::specs::Words::seeded))]
pub(crate) fn seeded(seed: u64) -> Pcg32
    ensures { result ≡ seeded seed }
{
    Pcg32::seed_from_u64(seed)
}

/// The generator's next word.
#[tactic(auto, unfolding(crate::specs::Words::drawn))]
fn drawn(generator: &mut Pcg32) -> u32
    ensures { (result, generator.new) ≡ drawn generator.old }
{
    generator.next_word()
}

/// The mark that is drawn for a piece by a chance, if a kind is corrupted by chance.
pub(crate) fn draw(chance: Option<u32>, piece: Span, generator: &mut Pcg32) -> Option<Mark>
    requires some { is_some chance ≡ true → 0 < piece.len }
    requires near { piece.first + piece.len ≤ greatest_sector }
    ensures mark { result ≡ (draw pcg_words chance piece generator.old).0 }
    ensures left { generator.new ≡ (draw pcg_words chance piece generator.old).1 }
{
    let chance = chance?;
    if drawn(generator) % CERTAIN < chance {
        let place = drawn(generator);
        let value = drawn(generator);
        Some(Mark {
            place: SECTOR_BYTES * piece.first + u64::from(place) % (SECTOR_BYTES * piece.len),
            value: (value % 256) as u8,
        })
    } else {
        None
    }
}

/// The mark of a fixed corruption on a piece, if it changes that piece.
pub(crate) fn fixed_mark(corrupt: Option<Corruption>, kind: Kind, piece: Span) -> Option<Mark>
    requires near { piece.first + piece.len ≤ greatest_sector }
    ensures { result ≡ fixed_mark corrupt kind piece }
{
    let corruption = corrupt?;
    if is_marked(corruption, kind, piece) {
        Some(mark_at(corruption, piece))
    } else {
        None
    }
}

/// Whether a fixed corruption changes this piece: bios carry no flags, and a short piece is left
/// alone.
fn is_marked(corruption: Corruption, kind: Kind, piece: Span) -> bool
    requires { piece.first + piece.len ≤ greatest_sector }
    ensures { result ≡ (is_of_kind corruption.direction kind
        && (corruption.flags == 0 && nat_le corruption.nth (512 * piece.len))) }
{
    is_of_kind(corruption.direction, kind)
        && corruption.flags == 0
        && u64::from(corruption.nth) <= SECTOR_BYTES * piece.len
}

/// The byte that a fixed corruption changes, counted in the line. Its N counts from 1.
fn mark_at(corruption: Corruption, piece: Span) -> Mark
    requires { piece.first + piece.len ≤ greatest_sector }
    ensures { result ≡ record {
      place = 512 * piece.first + (corruption.nth - 1);
      value = corruption.value;
    } }
{
    Mark {
        place: SECTOR_BYTES * piece.first + u64::from(corruption.nth).saturating_sub(1),
        value: corruption.value,
    }
}
