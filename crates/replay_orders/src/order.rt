// An order, run at the counter as a line says: in one, or in parts of which the first loads the program and the others go on.
use crate::columns::{ANSWER, OUTPUT_BYTES, SIZES, STEP, WRITTEN};
use answers::answer::Answer;
use executor::run_answer;
use replay_lists::answer;
use replay_lists::columns::{length_within, number_at};
use replay_lists::program::Program;
use replay_lists::sizes::sizes_at;
use runner::Printed;

// What an order, or a part of it, comes to.
#[derive(Clone, Copy)]
pub(crate) struct Told {
    pub(crate) answer: Answer,
    pub(crate) written: usize,
}

impl Told {
    fn by(printed: Printed) -> Told {
        Told {
            answer: run_answer(printed.answer),
            written: printed.written,
        }
    }
}

// The most instructions that a line's order may take.
pub(crate) fn step_of(numbers: &[u64]) -> Option<u32> {
    u32::try_from(number_at(numbers, STEP)).ok()
}

// Runs the program on its input, in what the line lends of a row and of an output; none if there is less than that.
pub(crate) fn print(
    numbers: &[u64],
    program: &Program,
    step: u32,
    words: &mut [u64],
    marks: &mut [u8],
    output: &mut [u8],
) -> Option<Told> {
    let sizes = sizes_at(numbers, SIZES, words, marks)?;
    let lent_output = length_within(numbers, OUTPUT_BYTES, output.len())?;
    Some(Told::by(runner::run_program(
        &mut words[..sizes.words],
        &mut marks[..sizes.marks],
        sizes.memory,
        sizes.log,
        step,
        program.lent(),
        program.tape,
        &mut output[..lent_output],
    )))
}

// Goes on with a row that a part has left, on the rest of the input and in the rest of the output, of which so many bytes are written.
pub(crate) fn go_on(
    numbers: &[u64],
    step: u32,
    input: &[u64],
    words: &mut [u64],
    marks: &mut [u8],
    output: &mut [u8],
    written: usize,
) -> Option<Told> {
    let sizes = sizes_at(numbers, SIZES, words, marks)?;
    let lent_output = length_within(numbers, OUTPUT_BYTES, output.len())?;
    Some(Told::by(runner::go_on(
        &mut words[..sizes.words],
        &mut marks[..sizes.marks],
        sizes.memory,
        sizes.log,
        step,
        input,
        output[..lent_output].get_mut(written..)?,
    )))
}

// Whether this is the line's answer.
pub(crate) fn is_told(numbers: &[u64], told: Told) -> bool {
    answer::is_answer(numbers, ANSWER, told.answer)
        && told.written as u64 == number_at(numbers, WRITTEN)
}
