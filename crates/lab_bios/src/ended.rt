use crate::bio::Stage;
use lab_model::Parent;
use lab_sector::DevNo;

/// What is told of a bio that lives no more.
#[derive(Debug, Drop)]
pub struct Ended {
    /// The device that it was for.
    pub device: DevNo,
    /// Whom it answered to.
    pub parent: Parent,
    /// How far it had come.
    pub stage: Stage,
    /// Whether its parent is a living bio for whose pieces no living bio is left.
    pub was_last: bool,
}
