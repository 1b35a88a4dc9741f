// One case: a store, its scoring without a table and by one, and some of its counters, on arrays of its own.
use crate::call::{JUNK_SCORE, Lent, are_scores, call, call_by_table, is_by_table};
use crate::columns::{
    LEFT, LENT_MARKS, LENT_TABLE, LENT_WORDS, NUMBER, NUMBER_BY_TABLE, Parts, parts_of,
};
use crate::counters::are_counters;
use crate::runs::{put_marks, put_words};
use replay_lists::columns::{length_within, number_at};
use replay_lists::table::{COUNTERS, JUNK_COUNTER, is_left};
use replay_lists::tally::{Judged, disagrees};

// What there is to lend: sixteen rows of 2,048 bytes of memory and sixteen log words fit, and two scores more.
const WORDS: usize = 4960;

const MARKS: usize = 4608;

const SCORES: usize = 18;

// Whether the call without a table has the line's number and leaves the line's scores.
fn replay_call(numbers: &[u64], expected: &[u64], lent: Lent) -> bool {
    let mut scores = [JUNK_SCORE; SCORES];
    call(numbers, lent, &mut scores) == Some(number_at(numbers, NUMBER))
        && are_scores(expected, &scores)
}

// The scores that the call by table leaves: those of the other, unless it is refused.
fn by_table<'a>(numbers: &[u64], expected: &'a [u64]) -> &'a [u64] {
    match number_at(numbers, NUMBER_BY_TABLE) {
        0 => expected,
        _ => &[],
    }
}

// Whether the call by table has the line's number and increments, and leaves the line's scores and table.
fn replay_by_table(numbers: &[u64], expected: &[u64], lent: Lent) -> bool {
    let mut scores = [JUNK_SCORE; SCORES];
    let mut table = [JUNK_COUNTER; COUNTERS];
    let Some(answer) = call_by_table(numbers, lent, &mut table, &mut scores) else {
        return false;
    };
    is_by_table(numbers, answer)
        && are_scores(by_table(numbers, expected), &scores)
        && is_left(numbers, LENT_TABLE, LEFT, &table)
}

// Whether the line's store comes to the line's scores and counters; none if a run of the store is not within it.
fn replay_store(numbers: &[u64], parts: Parts) -> Option<bool> {
    let mut words = [0; WORDS];
    let mut marks = [0; MARKS];
    put_words(parts.word_runs, &mut words)?;
    put_marks(parts.mark_runs, &mut marks)?;
    let lent_words = length_within(numbers, LENT_WORDS, WORDS)?;
    let lent_marks = length_within(numbers, LENT_MARKS, MARKS)?;
    let lent = Lent {
        words: &words[..lent_words],
        marks: &marks[..lent_marks],
    };
    Some(
        are_counters(numbers, parts.counters, lent.words, lent.marks)
            && replay_call(numbers, parts.scores, lent)
            && replay_by_table(numbers, parts.scores, lent),
    )
}

pub(crate) fn judge(numbers: &[u64]) -> Judged {
    let Some(parts) = parts_of(numbers) else {
        return disagrees(0);
    };
    Judged {
        agrees: replay_store(numbers, parts) == Some(true),
        parts: parts.scores.len() as u64,
    }
}
