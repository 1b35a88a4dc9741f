// One case: an order, in one and in parts, on arrays of its own.
use crate::columns::{DIGEST, program_of};
use crate::order::{Told, is_told, print, step_of};
use crate::parts::print_in_parts;
use crate::refusal::stays_refused;
use replay_lists::columns::number_at;
use replay_lists::digest::{JUNK, JUNK_MARK, digest_of, with_marks};
use replay_lists::program::Program;
use replay_lists::tally::{Judged, disagrees};
use replay_parts::{Parts, SIZES};

// What there is to lend: rows of 2,048 bytes of memory and eight log words fit.
const WORDS: usize = 304;

const MARKS: usize = 288;

const OUTPUT: usize = 128;

// What stands in the output before the call.
const JUNK_BYTE: u8 = 0xee;

// Whether this answer is the line's, and what is left of row and output.
fn agrees(numbers: &[u64], told: Told, words: &[u64], marks: &[u8], output: &[u8]) -> bool {
    let digest = with_marks(digest_of(words, marks), output);
    is_told(numbers, told) && digest == number_at(numbers, DIGEST)
}

// Whether the order in one has the line's answer and leaves what the line says of row and output.
fn replay_order(numbers: &[u64], program: &Program, step: u32) -> Option<bool> {
    let mut words = [JUNK; WORDS];
    let mut marks = [JUNK_MARK; MARKS];
    let mut output = [JUNK_BYTE; OUTPUT];
    let told = print(numbers, program, step, &mut words, &mut marks, &mut output)?;
    let stays = stays_refused(numbers, program, told, &mut words, &mut marks, &mut output)?;
    Some(stays && agrees(numbers, told, &words, &marks, &output))
}

// How many calls the order takes in these parts, if it comes to the same.
fn replay_parts(numbers: &[u64], program: &Program, parts: Parts) -> Option<u64> {
    let mut words = [JUNK; WORDS];
    let mut marks = [JUNK_MARK; MARKS];
    let mut output = [JUNK_BYTE; OUTPUT];
    let resumed = print_in_parts(numbers, program, parts, &mut words, &mut marks, &mut output)?;
    agrees(numbers, resumed.told, &words, &marks, &output).then_some(resumed.calls)
}

// How many calls there are for the order, in one and in parts of all sizes, if all agree with the line.
fn replay(numbers: &[u64]) -> Option<u64> {
    let program = program_of(numbers)?;
    let step = step_of(numbers)?;
    if !replay_order(numbers, &program, step)? {
        return None;
    }
    let mut calls = 1u64;
    for size in SIZES {
        let parts = Parts::new(size, step);
        calls = calls.saturating_add(replay_parts(numbers, &program, parts)?);
    }
    Some(calls)
}

pub(crate) fn judge(numbers: &[u64]) -> Judged {
    match replay(numbers) {
        Some(parts) => Judged {
            agrees: true,
            parts,
        },
        None => disagrees(0),
    }
}
