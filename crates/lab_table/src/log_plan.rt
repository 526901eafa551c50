use lab_model::LogLine;
use std::marker::Model;

/// A log with its files bound to devices.
#[derive(Debug, Drop)]
pub struct LogPlan {
    /// The name in the log's heading.
    pub name: Vec<u8>,
    /// The lines after the header.
    pub lines: Vec<LogLine>,
}

impl Model for LogPlan {
    ghost use Rattle.lab_model.specs.Scenario.{LogPlan as Log};

    ghost Value = { Log };

    ghost view = { λ log. record { name = log.name.items; lines = log.lines.items } };
}
