// A list in its file, read line by line.
ghost use Rattle.std.specs.Prelude.{◌≡◌, ◌<◌, ◌≤◌, length, IfSome};

use crate::line::Line;
use std::fs::File;
use std::os::unix::fs::FileExt;

// How many bytes of a file are read at once.
pub const PART_BYTES: usize = 4096;

// Far more than any list has: where reading stops if a file has no end.
pub const MOST_BYTES: usize = 0x1_0000_0000;

// What stands before the name of a line that is wrong on purpose.
pub const WRONG: u8 = b'!';

// How many numbers a line has, none if it is broken, where the next line starts, and whether the line is wrong on purpose.
#[derive(Clone, Copy)]
pub struct Read {
    pub count: usize,
    pub next: usize,
    pub wrong: bool,
}

// What came of some bytes, and how many of them belong to the line.
#[derive(Clone, Copy)]
struct Part {
    line: Line,
    taken: usize,
}

fn with_bytes(before: Line, numbers: &mut [u64], text: &[u8]) -> Part
    ensures taken_in_bounds { result.taken ≤ length text.now }
    ensures taken_nonzero { 0 < length text.now → 0 < result.taken }
{
    let mut line = before;
    for (i, byte) in text.iter().enumerate() {
        line = line.with_byte(numbers, *byte);
        if line.has_ended() {
            return Part { line, taken: i + 1 };
        }
    }
    Part {
        line,
        taken: text.len(),
    }
}

// The bytes of the file from a place on, as many as are there or fit. A failed read is taken for the end of the file. What a file
// holds no contract can say.
pub fn read_part<'a>(file: &File, at: usize, room: &'a mut [u8; PART_BYTES]) -> &'a [u8]
    ensures { length result.now ≤ 4096 }
{
    let bytes = file.read_at(room, at as u64).unwrap_or(0);
    &room[..bytes]
}

// The numbers of the line from a place on, and none at the end of the file.
pub fn read_line(file: &File, from: usize, numbers: &mut [u64]) -> Option<Read>
    ensures moves_on { IfSome result (λ r. (from < r.next) × (from < 0x1_0000_0000)) }
    ensures count { IfSome result (λ r. r.count ≤ length numbers.old) }
{
    if from >= MOST_BYTES {
        return None;
    }
    let mut line = Line::new();
    let mut at = from;
    while at < MOST_BYTES && !line.has_ended() {
        let part = with_bytes(line, numbers, read_part(file, at, &mut [0; PART_BYTES]));
        line = part.line;
        if part.taken == 0 {
            break;
        }
        at += part.taken;
    }
    if at == from {
        return None;
    }
    Some(Read {
        count: line.numbers(numbers.len()),
        next: at,
        wrong: line.wrong,
    })
}
