use crate::files::Files;
use lab_model::Answer;
use std::marker::Model;

/// How far a log has come.
#[derive(Debug, Drop)]
pub struct LogState {
    /// The lines that it has taken.
    pub taken: usize,
    /// Its moment, from the replay on, in microseconds.
    pub moment: u64,
    pub files: Files,
    pub answers: Vec<Answer>,
}

impl Model for LogState {
    ghost use Rattle.lab_model.specs.State.{LogState as Log};

    ghost Value = { Log };

    ghost view = { λ log. record {
      taken = log.taken;
      moment = log.moment;
      files = log.files;
      answers = log.answers.items;
    } };
}
