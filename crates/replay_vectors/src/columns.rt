// The columns of a line: lowercase hexadecimal numbers at fixed places.
ghost use Rattle.std.specs.Prelude.{◌<◌};

use replay_lists::digits::{BASE, ROOM_FOR_DIGIT, digit};

// In a shape, a column of a number and one that may hold any byte.
const DIGIT: u8 = b'h';

const ANY: u8 = b'?';

// One more than the largest word.
const WORDS: u64 = 0x1_0000_0000;

// Where a number stands, and how many digits it has.
#[derive(Clone, Copy)]
pub(crate) struct Column {
    pub(crate) at: usize,
    pub(crate) digits: usize,
}

fn fits(byte: u8, column: u8) -> bool {
    match column {
        DIGIT => digit(byte).is_some(),
        ANY => true,
        _ => byte == column,
    }
}

// Whether a line has just these columns.
pub(crate) fn has_shape(line: &[u8], shape: &[u8]) -> bool {
    line.len() == shape.len()
        && line
            .iter()
            .zip(shape)
            .all(|(byte, column)| fits(*byte, *column))
}

impl Column {
    // The number in the column of a line that has its list's shape.
    pub(crate) fn number(self, line: &[u8]) -> u64 {
        let Some((_, from)) = line.split_at_checked(self.at) else {
            return 0;
        };
        let digits = &from[..self.digits.min(from.len())];
        digits.iter().fold(0, |value, byte| {
            value % ROOM_FOR_DIGIT * BASE + digit(*byte).unwrap_or(0)
        })
    }

    // The instruction word in a column of eight digits.
    pub(crate) fn word(self, line: &[u8]) -> u32 {
        (self.number(line) % WORDS) as u32
    }
}
