// A line of the list while its bytes come: a name, then lowercase hexadecimal numbers with one space before each. A mark before
// the name says that something in the line is wrong on purpose.
ghost use Rattle.std.specs.Prelude.{◌≤◌};

use crate::digits::{BASE, ROOM_FOR_DIGIT, digit};
use crate::reader::WRONG;

const MOST_DIGITS: usize = 16;

// What is being read.
#[derive(Clone, Copy)]
enum Place {
    // none of the name has come
    Start,
    Name,
    Number { value: u64, digits: usize },
    // something in the line is wrong, and what is left of it is passed over
    Broken,
    // the line feed has come
    End,
}

#[derive(Clone, Copy)]
pub(crate) struct Line {
    pub(crate) wrong: bool,
    place: Place,
    // numbers that are read; none of a line that is broken
    count: usize,
}

const NO_NUMBER: Place = Place::Number {
    value: 0,
    digits: 0,
};

impl Line {
    pub(crate) fn new() -> Line {
        Line {
            wrong: false,
            place: Place::Start,
            count: 0,
        }
    }

    pub(crate) fn has_ended(self) -> bool {
        matches!(self.place, Place::End)
    }

    fn at(self, place: Place) -> Line {
        Line { place, ..self }
    }

    fn broken(self) -> Line {
        Line {
            place: Place::Broken,
            count: 0,
            ..self
        }
    }

    // A byte before which none of the name has come: the mark, or the name's first. The name may not be empty.
    fn with_first(self, byte: u8) -> Line {
        match byte {
            WRONG if !self.wrong => Line {
                wrong: true,
                ..self
            },
            b' ' => self.broken(),
            _ => self.at(Place::Name),
        }
    }

    fn with_digit(self, value: u64, digits: usize, byte: u8) -> Line {
        match digit(byte) {
            Some(digit) if digits < MOST_DIGITS => self.at(Place::Number {
                value: value % ROOM_FOR_DIGIT * BASE + digit,
                digits: digits + 1,
            }),
            _ => self.broken(),
        }
    }

    // The number that was read goes to its place among the line's numbers.
    fn with_number(self, numbers: &mut [u64], value: u64, digits: usize) -> Line {
        let at = self.count;
        if digits == 0 || at >= numbers.len() {
            return self.broken();
        }
        numbers[at] = value;
        Line {
            place: NO_NUMBER,
            count: at + 1,
            ..self
        }
    }

    // The line feed ends the last number. A line that has none is broken.
    fn with_end(self, numbers: &mut [u64]) -> Line {
        let line = match self.place {
            Place::Number { value, digits } => self.with_number(numbers, value, digits),
            _ => self.broken(),
        };
        line.at(Place::End)
    }

    // Any byte but a line feed. A space ends the name or a number.
    fn with_other(self, numbers: &mut [u64], byte: u8) -> Line {
        match self.place {
            Place::Start => self.with_first(byte),
            Place::Name if byte == b' ' => self.at(NO_NUMBER),
            Place::Number { value, digits } if byte == b' ' => {
                self.with_number(numbers, value, digits)
            }
            Place::Number { value, digits } => self.with_digit(value, digits, byte),
            _ => self,
        }
    }

    pub(crate) fn with_byte(self, numbers: &mut [u64], byte: u8) -> Line {
        if byte == b'\n' {
            self.with_end(numbers)
        } else {
            self.with_other(numbers, byte)
        }
    }

    // How many numbers the line has, of at most so many; none if it is broken or has no end.
    pub(crate) fn numbers(self, most: usize) -> usize
        ensures { result ≤ most }
    {
        if self.has_ended() {
            self.count.min(most)
        } else {
            0
        }
    }
}
