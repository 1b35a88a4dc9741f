// Where the parts of a line stand: twenty-four numbers, then the words of code, data and tape.
use replay_lists::program::Program;

// The options are the first, and then what is lent.
pub(crate) const LOG: usize = 7;

pub(crate) const LENT_WORDS: usize = 8;

pub(crate) const LENT_MARKS: usize = 9;

const PROGRAM: usize = 10;

// The answer without a table, with the row between its number and its pc, and the digest.
pub(crate) const NUMBER: usize = 15;

pub(crate) const ROW: usize = 16;

pub(crate) const PC: usize = 17;

pub(crate) const VALUE: usize = 18;

pub(crate) const USED: usize = 19;

pub(crate) const DIGEST: usize = 20;

// What is lent to the search by table, and what it comes to.
pub(crate) const LENT_TABLE: usize = 21;

pub(crate) const NUMBER_BY_TABLE: usize = 22;

pub(crate) const LEFT: usize = 23;

const CODE: usize = 24;

// The most that a line has.
pub(crate) const MOST_NUMBERS: usize = 320;

// The program of a line that has the lengths that it says, and just so many numbers.
pub(crate) fn program_of(numbers: &[u64]) -> Option<Program<'_>> {
    Program::at(numbers, PROGRAM, CODE, 0)
}
