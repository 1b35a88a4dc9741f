// A run of a row, changed before it as a line says.
use crate::case::{Marks, Words};
use crate::parts::replay_in_parts;
use answers::answer::Answer;
use executor::run_answer;
use replay_lists::answer::is_answer;
use replay_lists::columns::number_at;
use replay_lists::digest::digest_of;
use replay_lists::sizes::sizes_at;

// Columns of a run; the sizes are the first.
const SIZES: usize = 0;

const CHANGE: usize = 4;

const INDEX: usize = 5;

const PUT: usize = 6;

const STEP: usize = 7;

// Of number, pc, value and used count the first.
const ANSWER: usize = 8;

const DIGEST: usize = 12;

// Kinds of change, as the list has them.
const NO_CHANGE: u64 = 0;

const OF_WORD: u64 = 1;

const OF_MARK: u64 = 2;

// What a run took, and how many calls were made for it: of the run in one and of its parts.
#[derive(Clone, Copy)]
pub(crate) struct Replayed {
    pub(crate) used: usize,
    pub(crate) calls: u64,
}

// Puts a word or a mark in its place, if there is such a place.
fn put<T: Drop>(places: &mut [T], index: u64, value: T) -> Option<()> {
    *places.get_mut(index as usize)? = value;
    Some(())
}

// Makes the run's change; none if there is no such change or no such place.
fn change(run: &[u64], words: &mut [u64], marks: &mut [u8]) -> Option<()> {
    let index = number_at(run, INDEX);
    let value = number_at(run, PUT);
    match number_at(run, CHANGE) {
        NO_CHANGE => Some(()),
        OF_WORD => put(words, index, value),
        OF_MARK => put(marks, index, u8::try_from(value).ok()?),
        _ => None,
    }
}

// What a run of so many instructions comes to; none if there is less than the line lends.
pub(crate) fn run_for(
    run: &[u64],
    step: u32,
    tape: &[u64],
    words: &mut [u64],
    marks: &mut [u8],
) -> Option<Answer> {
    let sizes = sizes_at(run, SIZES, words, marks)?;
    let ran = executor::run(
        &mut words[..sizes.words],
        &mut marks[..sizes.marks],
        sizes.memory,
        sizes.log,
        step,
        tape,
    );
    Some(run_answer(ran))
}

// Whether the run's answer and what it leaves are the line's.
pub(crate) fn is_told(run: &[u64], answer: Answer, words: &[u64], marks: &[u8]) -> bool {
    is_answer(run, ANSWER, answer) && digest_of(words, marks) == number_at(run, DIGEST)
}

// A run, and the same in parts on copies of the row; none if the line cannot be followed or does not agree.
pub(crate) fn replay_run(
    run: &[u64],
    tape: &[u64],
    words: &mut Words,
    marks: &mut Marks,
) -> Option<Replayed> {
    change(run, words, marks)?;
    let step = u32::try_from(number_at(run, STEP)).ok()?;
    let parts = replay_in_parts(run, step, tape, words, marks)?;
    let answer = run_for(run, step, tape, words, marks)?;
    is_told(run, answer, words, marks).then_some(Replayed {
        used: answer.used as usize,
        calls: parts.saturating_add(1),
    })
}
