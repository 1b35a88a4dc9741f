// A run in parts, on copies of the row: each goes on with what the part before it left of the row and of the tape. Together they come to what the line
// says of the run in one.
use crate::case::{Marks, Words};
use crate::running::{is_told, run_for};
use answers::answer::Answer;
use replay_lists::digest::digest_of;
use replay_parts::{LIMIT, LIMIT_REACHED, Parts, SIZES};

// The largest limit with which a row may be run, and the number by which a run is refused where it is larger.
const MOST_LIMIT: u64 = 0x8000_0000_0000_0000;

const INVALID_ROW: u64 = 9;

// Whether a run is refused for the row's limit, and changes nothing.
fn is_refused(
    run: &[u64],
    step: u32,
    tape: &[u64],
    words: &mut Words,
    marks: &mut Marks,
) -> Option<bool> {
    let before = digest_of(words, marks);
    let answer = run_for(run, step, tape, words, marks)?;
    Some(answer == Answer::refused(INVALID_ROW) && digest_of(words, marks) == before)
}

// Whether this is the line's answer, and the row the line's but for the limit, to which a run in one adds so much besides.
fn is_told_but_for_limit(
    run: &[u64],
    answer: Answer,
    missing: u64,
    words: &mut Words,
    marks: &Marks,
) -> bool {
    words[LIMIT] = words[LIMIT].wrapping_add(missing);
    is_told(run, answer, words, marks)
}

// How many parts there are, if they agree with the line. Where a part leaves a limit that is too large, the next one is the last.
fn replay_parts(
    run: &[u64],
    whole: Parts,
    tape: &[u64],
    words: &mut Words,
    marks: &mut Marks,
) -> Option<u64> {
    let mut parts = whole;
    let mut used = 0usize;
    let mut count = 0u64;
    loop {
        let part = parts.take();
        let answer = run_for(run, part, tape.get(used..)?, words, marks)?;
        used = used.saturating_add(answer.used as usize);
        count = count.saturating_add(1);
        if part == 0 || answer.number != LIMIT_REACHED {
            let used = used as u64;
            let missing = parts.missing(answer.number);
            return is_told_but_for_limit(
                run,
                Answer { used, ..answer },
                missing,
                words,
                marks,
            ).then_some(count);
        }
        if words[LIMIT] > MOST_LIMIT {
            return is_refused(run, parts.take(), tape.get(used..)?, words, marks)?.then_some(
                count.saturating_add(1),
            );
        }
    }
}

// How many parts a run of the row has in all sizes of parts, if all agree with the line.
pub(crate) fn replay_in_parts(
    run: &[u64],
    step: u32,
    tape: &[u64],
    row_words: &Words,
    row_marks: &Marks,
) -> Option<u64> {
    let mut count = 0u64;
    for size in SIZES {
        let mut words = *row_words;
        let mut marks = *row_marks;
        let parts = replay_parts(run, Parts::new(size, step), tape, &mut words, &mut marks)?;
        count = count.saturating_add(parts);
    }
    Some(count)
}
