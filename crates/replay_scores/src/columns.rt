// Where the parts of a line stand: sixteen numbers, then scores, counters, and the runs of words and of marks.
use replay_lists::columns::length_within;

pub(crate) const MEMORY: usize = 0;

pub(crate) const LOG: usize = 1;

pub(crate) const ROWS: usize = 2;

pub(crate) const MEAN: usize = 3;

pub(crate) const LENT_WORDS: usize = 4;

pub(crate) const LENT_MARKS: usize = 5;

pub(crate) const LENT_SCORES: usize = 6;

pub(crate) const NUMBER: usize = 7;

const SCORES: usize = 8;

const COUNTERS: usize = 9;

const WORD_RUNS: usize = 10;

const MARK_RUNS: usize = 11;

// What is lent to the call by table, and what it comes to.
pub(crate) const LENT_TABLE: usize = 12;

pub(crate) const NUMBER_BY_TABLE: usize = 13;

pub(crate) const INCREMENTS: usize = 14;

pub(crate) const LEFT: usize = 15;

const FIRST_SCORE: usize = 16;

// Counters and runs have three numbers each.
pub(crate) const TRIPLE: usize = 3;

// The most that a line has.
pub(crate) const MOST_NUMBERS: usize = 1536;

// The numbers of a line after its first, by what they say.
#[derive(Clone, Copy)]
pub(crate) struct Parts<'a> {
    pub(crate) scores: &'a [u64],
    pub(crate) counters: &'a [u64],
    pub(crate) word_runs: &'a [u64],
    pub(crate) mark_runs: &'a [u64],
}

// The parts of a line that has just so many numbers as it says.
pub(crate) fn parts_of(numbers: &[u64]) -> Option<Parts<'_>> {
    let scores = length_within(numbers, SCORES, MOST_NUMBERS)?;
    let counters = length_within(numbers, COUNTERS, MOST_NUMBERS)?;
    let word_runs = length_within(numbers, WORD_RUNS, MOST_NUMBERS)?;
    let mark_runs = length_within(numbers, MARK_RUNS, MOST_NUMBERS)?;
    let (_, rest) = numbers.split_at_checked(FIRST_SCORE)?;
    let (scores, rest) = rest.split_at_checked(scores)?;
    let (counters, rest) = rest.split_at_checked(TRIPLE * counters)?;
    let (word_runs, rest) = rest.split_at_checked(TRIPLE * word_runs)?;
    (rest.len() == TRIPLE * mark_runs).then_some(Parts {
        scores,
        counters,
        word_runs,
        mark_runs: rest,
    })
}
