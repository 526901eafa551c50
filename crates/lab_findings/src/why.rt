use crate::culprit::Culprit;
use lab_next::Writer;

/// Why a sector is wrong.
#[derive(Clone, Copy, Debug, PartialEq, Eq)]
pub(crate) struct Why {
    /// Which line did it, where one did.
    pub(crate) culprit: Option<Culprit>,
    /// Who wrote what was answered there.
    pub(crate) got: Option<Writer>,
    /// Who wrote what should be there.
    pub(crate) wanted: Option<Writer>,
}

impl Why {
    /// No reason is known.
    pub(crate) const NONE: Why = Why {
        culprit: None,
        got: None,
        wanted: None,
    };
}
