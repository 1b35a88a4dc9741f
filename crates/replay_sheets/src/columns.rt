// Where the parts of a line stand: three numbers, the words of the sheet, and the words of what is printed.
ghost use Rattle.std.specs.Prelude.{◌<◌, ◌≤◌, length};
ghost use Rattle.report.specs.Reports.{sheet_buffer, most_printed};

use replay_lists::columns::{WORD_BYTES, byte_of, length_within, number_at};
use report::{MOST_PRINTED, SHEET_BUFFER};

// The length of the sheet and of what is printed are in bytes.
const LENGTH: usize = 0;

const STORED: usize = 1;

const PRINTED: usize = 2;

const SHEET: usize = 3;

// The most that a line has.
pub(crate) const MOST_NUMBERS: usize = 512;

#[derive(Clone, Copy)]
pub(crate) struct Case<'a> {
    // of the sheet, in bytes
    pub(crate) bytes: usize,
    // words of the sheet that the line has
    pub(crate) stored: &'a [u64],
    // the words of the bytes that are printed, and how many bytes these are
    pub(crate) words: &'a [u64],
    pub(crate) printed: usize,
    ghost within_buffer: { bytes ≤ sheet_buffer },
    ghost has_stored: { 0 < length stored.now },
    ghost at_most: { printed ≤ most_printed },
}

// The case of a line that has the lengths that it says, and just so many numbers.
pub(crate) fn case_of(numbers: &[u64]) -> Option<Case<'_>> {
    let bytes = length_within(numbers, LENGTH, SHEET_BUFFER)?;
    let stored = length_within(numbers, STORED, MOST_NUMBERS)?;
    let printed = length_within(numbers, PRINTED, MOST_PRINTED)?;
    let (_, rest) = numbers.split_at_checked(SHEET)?;
    let (stored, words) = rest.split_at_checked(stored)?;
    if stored.is_empty() || words.len() != printed.div_ceil(WORD_BYTES) {
        return None;
    }
    Some(Case {
        bytes,
        stored,
        words,
        printed,
    })
}

// A byte of some words, counted from the lowest of the first; 0 past the last.
pub(crate) fn byte_at(words: &[u64], place: usize) -> u8 {
    byte_of(
        number_at(words, place / WORD_BYTES),
        (place % WORD_BYTES) as u64,
    )
}
