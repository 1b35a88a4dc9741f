// One case: a search without a table and by one, on arrays of its own.
use crate::asked::{STATES, options_of};
use crate::columns::{DIGEST, LEFT, LENT_TABLE, NUMBER, program_of};
use crate::searching::{
    is_answer, is_answer_by_table, is_same_by_table, search_line, search_line_by_table,
};
use options::RaritySimulationOptions;
use replay_lists::columns::number_at;
use replay_lists::digest::{JUNK, JUNK_MARK, digest_of};
use replay_lists::program::Program;
use replay_lists::table::{COUNTERS, JUNK_COUNTER, is_left};
use replay_lists::tally::{Judged, disagrees};

// What there is to lend: twelve rows of 2,048 bytes of memory and sixteen log words fit.
const WORDS: usize = 3728;

const MARKS: usize = 3456;

// The refusals are the numbers from 1 to this.
const LAST_REFUSAL: u64 = 7;

// How many states a call has that is not refused.
fn states_of(numbers: &[u64]) -> u64 {
    match number_at(numbers, NUMBER) {
        1..=LAST_REFUSAL => 0,
        _ => number_at(numbers, STATES),
    }
}

// Whether the search without a table has the line's answer and leaves what the line says.
fn replay_search(numbers: &[u64], asked: RaritySimulationOptions, program: &Program) -> bool {
    let mut words = [JUNK; WORDS];
    let mut marks = [JUNK_MARK; MARKS];
    let Some(answer) = search_line(numbers, asked, program, &mut words, &mut marks) else {
        return false;
    };
    is_answer(numbers, answer) && digest_of(&words, &marks) == number_at(numbers, DIGEST)
}

// The digest of what nobody has written to.
fn untouched() -> u64 {
    digest_of(&[JUNK; WORDS], &[JUNK_MARK; MARKS])
}

// What the search by table leaves: the same as the other, or all as it was.
fn digest_by_table(numbers: &[u64]) -> u64 {
    if is_same_by_table(numbers) {
        number_at(numbers, DIGEST)
    } else {
        untouched()
    }
}

// Whether the search by table has the line's answer, and leaves store and table as the line says.
fn replay_by_table(numbers: &[u64], asked: RaritySimulationOptions, program: &Program) -> bool {
    let mut words = [JUNK; WORDS];
    let mut marks = [JUNK_MARK; MARKS];
    let mut table = [JUNK_COUNTER; COUNTERS];
    let Some(answer) = search_line_by_table(
        numbers, asked, program, &mut words, &mut marks, &mut table,
    ) else {
        return false;
    };
    is_answer_by_table(numbers, answer)
        && digest_of(&words, &marks) == digest_by_table(numbers)
        && is_left(numbers, LENT_TABLE, LEFT, &table)
}

pub(crate) fn judge(numbers: &[u64]) -> Judged {
    let Some(program) = program_of(numbers) else {
        return disagrees(0);
    };
    let Some(asked) = options_of(numbers) else {
        return disagrees(0);
    };
    Judged {
        agrees: replay_search(numbers, asked, &program)
            && replay_by_table(numbers, asked, &program),
        parts: states_of(numbers),
    }
}
