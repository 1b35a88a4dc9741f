// What a refused order was lent, which it has left as it was: to go on with that is refused too.
use crate::order::{Told, go_on};
use answers::answer::Answer;
use replay_lists::program::Program;
use replay_parts::is_refusal;

// What is refused for its sizes has one of the numbers to this; the others are the program's.
const LENT_LENGTHS: u64 = 5;

const INVALID_ROW: u64 = 9;

// By which number. Where the program alone was refused, what was lent is no row.
fn number_again(number: u64) -> u64 {
    if number <= LENT_LENGTHS {
        number
    } else {
        INVALID_ROW
    }
}

// Whether an order that comes to this stays refused: to go on is refused too, and writes nothing. Of one that is accepted nothing is asked.
pub(crate) fn stays_refused(
    numbers: &[u64],
    program: &Program,
    told: Told,
    words: &mut [u64],
    marks: &mut [u8],
    output: &mut [u8],
) -> Option<bool> {
    let number = told.answer.number;
    if !is_refusal(number) {
        return Some(true);
    }
    let again = go_on(numbers, 1, program.tape, words, marks, output, 0)?;
    Some(again.answer == Answer::refused(number_again(number)) && again.written == 0)
}
