// Where the parts of a line stand: twelve numbers, then the words of code, data and tape, then the runs.
use replay_lists::columns::length_within;
use replay_lists::program::Program;

// The columns of a line's start; the sizes are the first.
pub(crate) const SIZES: usize = 0;

const PROGRAM: usize = 4;

const RUNS: usize = 9;

pub(crate) const NUMBER: usize = 10;

pub(crate) const DIGEST: usize = 11;

const CODE: usize = 12;

// How many numbers a run has.
pub(crate) const RUN_COLUMNS: usize = 13;

// The most that a line has.
pub(crate) const MOST_NUMBERS: usize = 192;

const MOST_RUNS: usize = 3;

// The program of a line that has the lengths that it says, and just so many numbers. What follows the tape are the runs.
pub(crate) fn program_of(numbers: &[u64]) -> Option<Program<'_>> {
    let runs = length_within(numbers, RUNS, MOST_RUNS)?;
    Program::at(numbers, PROGRAM, CODE, runs * RUN_COLUMNS)
}
