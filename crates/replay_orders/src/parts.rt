// An order in parts, each of which goes on with what the part before it left of the row, of the input and of the output. Together they come to what the
// line says of the order in one.
use crate::order::{Told, go_on, print};
use answers::answer::Answer;
use replay_lists::program::Program;
use replay_parts::{LIMIT, LIMIT_REACHED, Parts};

// What the parts come to together, and how many calls there were.
#[derive(Clone, Copy)]
pub(crate) struct Resumed {
    pub(crate) told: Told,
    pub(crate) calls: u64,
}

// The parts of an order. Its row is then that of an order in one, limit and all.
pub(crate) fn print_in_parts(
    numbers: &[u64],
    program: &Program,
    whole: Parts,
    words: &mut [u64],
    marks: &mut [u8],
    output: &mut [u8],
) -> Option<Resumed> {
    let mut parts = whole;
    let mut part = parts.take();
    let mut told = print(numbers, program, part, words, marks, output)?;
    let mut calls = 1u64;
    while part != 0 && told.answer.number == LIMIT_REACHED {
        part = parts.take();
        let input = program.tape.get(told.answer.used as usize..)?;
        let next = go_on(numbers, part, input, words, marks, output, told.written)?;
        told = joined(told, next);
        calls = calls.saturating_add(1);
    }
    let limit = words.get_mut(LIMIT)?;
    *limit = limit.wrapping_add(parts.missing(told.answer.number));
    Some(Resumed { told, calls })
}

// What two parts come to: the second's answer, and what both took and wrote.
fn joined(first: Told, second: Told) -> Told {
    Told {
        answer: Answer {
            used: first.answer.used.saturating_add(second.answer.used),
            ..second.answer
        },
        written: first.written.saturating_add(second.written),
    }
}
