ghost use Rattle.std.specs.Prelude.{◌≡◌};
ghost use Rattle.lab_findings.specs.Watched.{keeps_claims, keeps_drops, kept_for};

use lab_watch::Kept;

/// Which findings are asked for.
#[derive(Clone, Copy, Debug, PartialEq, Eq)]
pub struct Sought {
    /// Answers with a failure.
    pub eio: bool,
    /// Lost writes and trims.
    pub lost: bool,
    /// Corrupt writes and reads.
    pub corrupt: bool,
    /// Stale reads.
    pub stale: bool,
    /// Misplaced reads.
    pub misplaced: bool,
    /// Broken syncs.
    pub broken_sync: bool,
}

impl Sought {
    /// Which answers are kept for what is asked for.
    pub(crate) fn kept(self) -> Kept
        ensures { result ≡ kept_for self }
    {
        Kept {
            reads: self.corrupt || self.stale || self.misplaced,
            drops: self.keeps_drops(),
        }
    }

    /// Whether it is needed what lines dropped.
    pub(crate) fn keeps_drops(self) -> bool
        ensures { result ≡ keeps_drops self }
    {
        self.lost || self.stale || self.broken_sync
    }

    /// Whether it is needed what operations claim.
    pub(crate) fn keeps_claims(self) -> bool
        ensures { result ≡ keeps_claims self }
    {
        self.stale || self.misplaced || self.broken_sync
    }
}
