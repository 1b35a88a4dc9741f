// The two searches of a line, on what the line lends.
use crate::columns::{
    LENT_MARKS, LENT_TABLE, LENT_WORDS, LOG, NUMBER, NUMBER_BY_TABLE, PC, ROW, USED, VALUE,
};
use answers::answer::Answer;
use options::RaritySimulationOptions;
use replay_lists::columns::{length_within, number_at};
use replay_lists::program::Program;
use search::answer::search_answer;

// The answer of the search without a table; none if there is less than the line lends.
pub(crate) fn search_line(
    numbers: &[u64],
    asked: RaritySimulationOptions,
    program: &Program,
    words: &mut [u64],
    marks: &mut [u8],
) -> Option<Answer> {
    let lent_words = length_within(numbers, LENT_WORDS, words.len())?;
    let lent_marks = length_within(numbers, LENT_MARKS, marks.len())?;
    let searched = search::search_for_bugs(
        &mut words[..lent_words],
        &mut marks[..lent_marks],
        asked,
        number_at(numbers, LOG),
        program.lent(),
        program.tape,
    );
    Some(search_answer(searched))
}

// The answer of the search by table.
pub(crate) fn search_line_by_table(
    numbers: &[u64],
    asked: RaritySimulationOptions,
    program: &Program,
    words: &mut [u64],
    marks: &mut [u8],
    table: &mut [u32],
) -> Option<Answer> {
    let lent_words = length_within(numbers, LENT_WORDS, words.len())?;
    let lent_marks = length_within(numbers, LENT_MARKS, marks.len())?;
    let lent_counters = length_within(numbers, LENT_TABLE, table.len())?;
    let searched = search::by_table::search_by_table(
        &mut words[..lent_words],
        &mut marks[..lent_marks],
        &mut table[..lent_counters],
        asked,
        number_at(numbers, LOG),
        program.lent(),
        program.tape,
    );
    Some(search_answer(searched))
}

// Whether the search by table comes to the same as the other.
pub(crate) fn is_same_by_table(numbers: &[u64]) -> bool {
    number_at(numbers, NUMBER_BY_TABLE) == number_at(numbers, NUMBER)
}

pub(crate) fn is_answer(numbers: &[u64], answer: Answer) -> bool {
    answer
        == Answer {
            number: number_at(numbers, NUMBER),
            row: number_at(numbers, ROW),
            pc: number_at(numbers, PC),
            value: number_at(numbers, VALUE),
            used: number_at(numbers, USED),
        }
}

// Whether the search by table has the line's answer: the other's, or the refusal of its table.
pub(crate) fn is_answer_by_table(numbers: &[u64], answer: Answer) -> bool {
    if is_same_by_table(numbers) {
        is_answer(numbers, answer)
    } else {
        answer == Answer::refused(number_at(numbers, NUMBER_BY_TABLE))
    }
}
