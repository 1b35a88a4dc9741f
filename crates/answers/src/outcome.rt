// How an executor ended, and whether it did (the Rust's ExecutorResult).
ghost use Rattle.std.specs.Prelude.{◌≡◌};
ghost use Rattle.answers.specs.Numbers.{outcome_number, outcome_value, progress_number, progress_value};

use crate::bug::Bug;
use crate::error::ExecutorError;

// How an executor ended.
#[derive(Clone, Copy)]
pub enum Outcome {
    // exit with 0
    Exited,
    Found(Bug),
    Failed(ExecutorError),
}

// What an instruction or a run comes to. A run that reached its limit is still running: number 22, the Rust's
// ExecutionDepthReached.
#[derive(Clone, Copy)]
pub enum Progress {
    Running,
    Ended(Outcome),
}

impl From<ExecutorError> for Outcome {
    ghost use Rattle.answers.specs.declared.outcome.Outcome.TheVariants.{Failed};

    ghost from_gives = { λ error outcome. outcome ≡ Failed error };

    fn from(error: ExecutorError) -> Outcome {
        Self::Failed(error)
    }
}

impl Outcome {
    // Document 01's number: 0 for an exit with 0.
    pub fn number(self) -> u64
        ensures { result ≡ outcome_number self }
    {
        match self {
            Outcome::Exited => 0,
            Outcome::Found(bug) => bug.number(),
            Outcome::Failed(error) => error.number(),
        }
    }

    // The value that belongs to it.
    pub fn value(self) -> u64
        ensures { result ≡ outcome_value self }
    {
        match self {
            Outcome::Exited => 0,
            Outcome::Found(bug) => bug.value(),
            Outcome::Failed(error) => error.value(),
        }
    }
}

impl Progress {
    // 22, or the outcome's number.
    pub fn number(self) -> u64
        ensures { result ≡ progress_number self }
    {
        match self {
            Progress::Running => 22,
            Progress::Ended(outcome) => outcome.number(),
        }
    }

    // 0, or the outcome's value.
    pub fn value(self) -> u64
        ensures { result ≡ progress_value self }
    {
        match self {
            Progress::Running => 0,
            Progress::Ended(outcome) => outcome.value(),
        }
    }
}
