// What an entry over one row is told of it, and how much is lent.
ghost use Rattle.std.specs.Prelude.{◌≤◌, length, IfSome};

use crate::columns::{length_within, number_at};

// Columns, counted from the first of the sizes.
const LOG: usize = 1;

const LENT_WORDS: usize = 2;

const LENT_MARKS: usize = 3;

#[derive(Clone, Copy)]
pub struct Sizes {
    pub memory: u64,
    pub log: u64,
    pub words: usize,
    pub marks: usize,
}

// None if there is less than the line lends.
pub fn sizes_at(numbers: &[u64], at: usize, words: &[u64], marks: &[u8]) -> Option<Sizes>
    requires { at ≤ 2000 }
    ensures { IfSome result (λ s. (s.words ≤ length words.now) × (s.marks ≤ length marks.now)) }
{
    Some(Sizes {
        memory: number_at(numbers, at),
        log: number_at(numbers, at + LOG),
        words: length_within(numbers, at + LENT_WORDS, words.len())?,
        marks: length_within(numbers, at + LENT_MARKS, marks.len())?,
    })
}
