// The sheet of a line.
use crate::columns::{Case, byte_at};
use replay_lists::columns::WORD_BYTES;
use report::SHEET_BUFFER;

// The stored words are taken over and over, so that a short line can have a long sheet.
pub(crate) fn sheet_of(case: Case) -> [u8; SHEET_BUFFER] {
    let mut sheet = [0; SHEET_BUFFER];
    for (place, byte) in sheet[..case.bytes].iter_mut().enumerate() {
        *byte = byte_at(case.stored, place % (case.stored.len() * WORD_BYTES));
    }
    sheet
}
