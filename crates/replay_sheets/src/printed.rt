// What is printed for the sheet of a line.
use crate::columns::{Case, byte_at};
use replay_lists::digest::JUNK_MARK;

// A byte of what is printed; past the end what was there before.
fn printed_byte(case: Case, place: usize) -> u8 {
    if place < case.printed {
        byte_at(case.words, place)
    } else {
        JUNK_MARK
    }
}

pub(crate) fn is_printed(case: Case, out: &[u8]) -> bool {
    out.iter()
        .enumerate()
        .all(|(place, byte)| *byte == printed_byte(case, place))
}
