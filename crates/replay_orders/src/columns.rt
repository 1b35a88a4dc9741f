// Where the parts of a line stand: seventeen numbers, then the words of code, data and input.
use replay_lists::program::Program;

// The columns of a line's start; the sizes are the first.
pub(crate) const SIZES: usize = 0;

const PROGRAM: usize = 4;

pub(crate) const STEP: usize = 9;

pub(crate) const OUTPUT_BYTES: usize = 10;

// Of number, pc, value and used count the first.
pub(crate) const ANSWER: usize = 11;

pub(crate) const WRITTEN: usize = 15;

pub(crate) const DIGEST: usize = 16;

const CODE: usize = 17;

// The most numbers that a line has.
pub(crate) const MOST_NUMBERS: usize = 192;

// The program of a line that has the lengths that it says, and just so many numbers. Its tape is the input.
pub(crate) fn program_of(numbers: &[u64]) -> Option<Program<'_>> {
    Program::at(numbers, PROGRAM, CODE, 0)
}
