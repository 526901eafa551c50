ghost use Rattle.std.specs.Prelude.{◌≡◌, ◌≢◌, [], Some, IfOk, IfErr, OnOk};
ghost use Rattle.lab_text.specs.Bundle.{HasParts, bundle_faults, first_of, parts_of};
ghost use Rattle.lab_text.specs.Lines.{lines_of};

use super::draft::Draft;
use super::heading::read_heading;
use super::spot::{Spot, body_end, text_between};
use lab_sector::NoMemory;
use std::alloc::Global;
use thiserror::Error;

/// The greatest number of bytes of a bundle.
pub const MAX_BUNDLE_BYTES: usize = 16_777_216;

/// A part of a bundle that has a name.
#[derive(Clone, Copy, Debug)]
pub struct Part<'a> {
    /// Its name.
    pub name: &'a [u8],
    /// Its lines: the bytes after the heading's line up to the next heading.
    pub text: &'a [u8],
}

/// The parts of a bundle, those of one kind in the order in which they stand.
#[derive(Debug, Drop)]
pub struct Bundle<'a> {
    /// The tables.
    pub tables: Vec<Part<'a>>,
    /// The script's text.
    pub script: &'a [u8],
    /// The logs.
    pub logs: Vec<Part<'a>>,
    /// The history's text, if there is one.
    pub history: Option<&'a [u8]>,
}

/// Why bytes are no bundle. Line numbers count the bundle's lines from 1.
#[derive(Clone, Copy, Debug, PartialEq, Eq, Error)]
pub enum BundleFault {
    /// There are more than 16,777,216 bytes.
    #[error("a bundle has at most 16777216 bytes")]
    TooBig,
    /// The line has a byte that is no tab, no newline and not 0x20 to 0x7E.
    #[error("line {0} has a byte that is no text")]
    NotText(u64),
    /// The line is a heading of none of the four forms.
    #[error("line {0} must be `== table NAME`, `== script`, `== log NAME` or `== history`")]
    BadHeading(u64),
    /// The line is a second heading of a script or a history, or of a table or log of one name.
    #[error("line {0} is a second heading of one part")]
    Twice(u64),
    /// The line stands before the first heading, and is neither blank nor a comment.
    #[error("line {0} belongs to no part")]
    Stray(u64),
    /// There is no script part.
    #[error("a bundle has a part `== script`")]
    NoScript,
    /// There was no memory for the list of parts.
    #[error("no memory")]
    NoMemory,
}

impl From<NoMemory> for BundleFault {
    ghost use Rattle.lab_text.specs.declared.bundle.BundleFault.TheVariants.{NoMemory};

    ghost from_gives = { λ _ fault. fault ≡ NoMemory };

    fn from(_refused: NoMemory) -> BundleFault {
        BundleFault::NoMemory
    }
}

/// Reads the parts of a bundle. Of its faults the first one is answered: `TooBig`, then those of
/// lines in the order of the lines, then `NoScript`.
pub fn read_bundle<'a>(alloc: Global, bytes: &'a [u8]) -> Result<Bundle<'a>, BundleFault>
    ensures ok { OnOk result (bundle_faults bytes.now ≡ []) }
    ensures parts { IfOk result (λ bundle. HasParts bundle (parts_of (lines_of bytes.now))) }
    ensures err { IfErr result (λ fault.
        fault ≢ BundleFault.NoMemory → first_of (bundle_faults bytes.now) ≡ Some fault) }
{
    if MAX_BUNDLE_BYTES < bytes.len() {
        return Err(BundleFault::TooBig);
    }
    let mut spot = body_end(Spot::first(bytes), false)?;
    let mut draft = Draft::new(alloc);
    while let Some((line, below)) = spot.first_line() {
        let heading = read_heading(line, spot.number)?;
        if draft.is_opened(heading) {
            return Err(BundleFault::Twice(spot.number));
        }
        let end = body_end(below, true)?;
        draft.add(heading, text_between(below, end))?;
        spot = end;
    }
    draft.finish()
}
