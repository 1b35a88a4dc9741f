// The two calls of a line, and the scores that they leave.
use crate::columns::{
    INCREMENTS, LENT_SCORES, LENT_TABLE, LOG, MEAN, MEMORY, NUMBER_BY_TABLE, ROWS,
};
use replay_lists::answer::mean_at;
use replay_lists::columns::{length_within, number_at};
use replay_lists::float::float_of;
use scoring::{ScoringError, scoring_number};

// What stands in the scores before a call: no score is below 1.
pub(crate) const JUNK_SCORE: f64 = 0.25;

// The rows that both calls are lent.
#[derive(Clone, Copy)]
pub(crate) struct Lent<'a> {
    pub(crate) words: &'a [u64],
    pub(crate) marks: &'a [u8],
}

// The number of the call without a table; none if there are fewer scores than the line lends, or no such mean.
pub(crate) fn call(numbers: &[u64], lent: Lent, scores: &mut [f64]) -> Option<u64> {
    let mean = mean_at(numbers, MEAN)?;
    let lent_scores = length_within(numbers, LENT_SCORES, scores.len())?;
    let answer = scoring::score_with_mean(
        lent.words,
        lent.marks,
        number_at(numbers, MEMORY),
        number_at(numbers, LOG),
        number_at(numbers, ROWS),
        mean,
        &mut scores[..lent_scores],
    );
    Some(scoring_number(answer))
}

// What the call by table answers.
pub(crate) fn call_by_table(
    numbers: &[u64],
    lent: Lent,
    table: &mut [u32],
    scores: &mut [f64],
) -> Option<Result<u64, ScoringError>> {
    let mean = mean_at(numbers, MEAN)?;
    let lent_scores = length_within(numbers, LENT_SCORES, scores.len())?;
    let lent_counters = length_within(numbers, LENT_TABLE, table.len())?;
    let answer = scoring::by_table::score_by_table(
        lent.words,
        lent.marks,
        number_at(numbers, MEMORY),
        number_at(numbers, LOG),
        number_at(numbers, ROWS),
        mean,
        &mut table[..lent_counters],
        &mut scores[..lent_scores],
    );
    Some(answer)
}

// Whether that has the line's number and increments, which are 0 where it is refused.
pub(crate) fn is_by_table(numbers: &[u64], answer: Result<u64, ScoringError>) -> bool {
    let (number, increments) = match answer {
        Ok(increments) => (0, increments),
        Err(error) => (error.number(), 0),
    };
    number == number_at(numbers, NUMBER_BY_TABLE) && increments == number_at(numbers, INCREMENTS)
}

// Whether the first scores are these, and the others as they were.
pub(crate) fn are_scores(expected: &[u64], scores: &[f64]) -> bool {
    scores.iter().enumerate().all(|(i, score)| *score
        == expected.get(i).map_or(JUNK_SCORE, |bits| float_of(*bits)))
}
