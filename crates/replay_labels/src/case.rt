// One case: a creation and the runs after it, on arrays of its own.
use crate::columns::{RUN_COLUMNS, program_of};
use crate::creation::replay_creation;
use crate::running::replay_run;
use replay_lists::digest::{JUNK, JUNK_MARK};
use replay_lists::program::Program;
use replay_lists::tally::{Judged, disagrees};

// What there is to lend: rows of 2,048 bytes of memory and eight log words fit.
const WORDS: usize = 304;

const MARKS: usize = 288;

pub(crate) type Words = [u64; WORDS];

pub(crate) type Marks = [u8; MARKS];

// The runs of a line one after the other, each on what the last one left of the row and of the tape. The first that disagrees
// is the last.
fn replay_runs(program: &Program, words: &mut Words, marks: &mut Marks) -> Judged {
    let mut used = 0usize;
    let mut calls = 0u64;
    for run in program.rest.chunks_exact(RUN_COLUMNS) {
        let Some(tape) = program.tape.get(used..) else {
            return disagrees(calls);
        };
        let Some(replayed) = replay_run(run, tape, words, marks) else {
            return disagrees(calls);
        };
        used = used.saturating_add(replayed.used);
        calls = calls.saturating_add(replayed.calls);
    }
    Judged {
        agrees: true,
        parts: calls,
    }
}

pub(crate) fn judge(numbers: &[u64]) -> Judged {
    let Some(program) = program_of(numbers) else {
        return disagrees(0);
    };
    let mut words = [JUNK; WORDS];
    let mut marks = [JUNK_MARK; MARKS];
    if replay_creation(numbers, &program, &mut words, &mut marks) {
        replay_runs(&program, &mut words, &mut marks)
    } else {
        disagrees(0)
    }
}
