// What a search comes to (the Rust's Result<Option<Bug>, RaritySimulationError>).
ghost use Rattle.std.specs.Prelude.{◌≡◌};
ghost use Rattle.answers.specs.Findings.{in_row, finding_answer};

use crate::answer::{Answer, in_no_row};
use crate::bug::Bug;
use crate::error::ExecutorError;
use crate::outcome::Outcome;

// How a search ends.
#[derive(Clone, Copy)]
pub enum Finding {
    // All rounds are done, and no state met a bug or an error.
    Nothing,
    // The first bug in row order: the row that met it, and the pc before the instruction.
    Found {
        bug: Bug,
        row: usize,
        pc: u64,
    },
    // The first error in row order, where no row met a bug.
    Failed {
        error: ExecutorError,
        row: usize,
        pc: u64,
    },
    // Filling found fewer tape words than copies to make.
    TapeShort,
    // The Rust's `expect`: scores that cannot be ordered.
    ScoresUnordered,
}

fn in_row(outcome: Outcome, row: usize, pc: u64, used: usize) -> Answer
    ensures { result ≡ in_row outcome row pc used }
{
    Answer {
        number: outcome.number(),
        row: row as u64,
        pc,
        value: outcome.value(),
        used: used as u64,
    }
}

impl Finding {
    // The answer of a search that has come to this, and has taken `used` tape words.
    pub fn answer(self, used: usize) -> Answer
        ensures { result ≡ finding_answer self used }
    {
        match self {
            Finding::Nothing => in_no_row(0, used),
            Finding::Found { bug, row, pc } => in_row(Outcome::Found(bug), row, pc, used),
            Finding::Failed { error, row, pc } => in_row(Outcome::Failed(error), row, pc, used),
            Finding::TapeShort => in_no_row(8, used),
            Finding::ScoresUnordered => in_no_row(31, used),
        }
    }
}
