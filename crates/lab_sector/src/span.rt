ghost use Rattle.std.specs.Prelude.{◌≡◌, ℕ, ◌+◌, ◌^◌, ◌<◌, ◌↔◌, IsTrue, IfSome, IfNone};

/// How many bytes a sector has.
pub const SECTOR_BYTES: u64 = 512;

/// The greatest sector that a table or a message may name, and the greatest number of sectors of a table's line.
pub const MAX_SECTOR: u64 = 1_099_511_627_776;

/// A run of sectors: `len` of them, from `first` on. As a set it has the sectors `k` with
/// `first <= k < first + len`, so it is empty where `len` is 0.
#[derive(Clone, Copy, Debug, PartialEq, Eq)]
pub struct Span {
    /// The first sector, counted from 0.
    pub first: u64,
    /// The number of sectors.
    pub len: u64,
}

impl Span {
    ghost use Rattle.lab_sector.specs.Span.{Holds};

    /// Whether each of its sectors is below `size`, as on a device of that many sectors.
    pub fn inside(self, size: u64) -> bool
        ensures below { IsTrue result ↔ ((k : ℕ) → Holds self k → k < size) }
    {
        self.len == 0 || (self.len <= size && self.first <= size - self.len)
    }

    /// The same sectors, each `by` further on.
    pub fn shift(self, by: u64) -> Span
        requires { self.first + by < 2 ^ 64 }
        ensures moved { (k : ℕ) → Holds result (k + by) ↔ Holds self k }
        ensures first { result.first ≡ self.first + by }
        ensures len { result.len ≡ self.len }
    {
        Span {
            first: self.first + by,
            len: self.len,
        }
    }

    /// The sectors that both have, or `None` where they have none in common.
    pub fn meet(self, other: &Span) -> Option<Span>
        ensures common { IfSome result (λ both. (k : ℕ) → Holds both k ↔ (Holds self k × Holds other.now k)) }
        ensures some { IfSome result (λ both. 0 < both.len) }
        ensures none { IfNone result ((k : ℕ) → Holds self k → ¬ Holds other.now k) }
    {
        let first = self.first.max(other.first);
        let own = self.len.saturating_sub(first - self.first);
        let others = other.len.saturating_sub(first - other.first);
        let len = own.min(others);
        if len == 0 {
            return None;
        }
        Some(Span { first, len })
    }
}
