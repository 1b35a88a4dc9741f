// Refusals by number, and the tests for all but 9 and 32.
ghost use Rattle.std.specs.Prelude.{◌≡◌, ◌≤◌, [], ◌∷◌};
ghost use Rattle.rows.specs.Limits.{most_rows, most_memory, most_log};
ghost use Rattle.checks.specs.Refusals.{refusal_number, checked_number, is_memory_size, is_amount_of_states, is_copy_ratio};
ghost use Rattle.checks.specs.Refusals.{is_log_size, are_lengths, is_whole, is_inside};
ghost use Rattle.checks.specs.Tests.{test, checked_by};

use rows::limits::{MEMORY_UNIT, MOST_LOG, MOST_MEMORY_BYTES, MOST_ROWS};
use rows::row::{HEADER, REGISTERS};

// Why an entry refuses, in the order in which it tests, each with its number.
#[derive(Clone, Copy)]
pub enum Refusal {
    MemorySize = 1,
    AmountOfStates = 2,
    CopyRatio = 3,
    LogSize = 4,
    LentLengths = 5,
    TableLength = 32,
    SegmentLength = 6,
    SegmentEnd = 7,
    InvalidRow = 9,
}

impl Refusal {
    // The number that hosts are told.
    pub fn number(self) -> u64
        ensures { result ≡ refusal_number self }
    {
        self as u64
    }
}

// The refusal's number, 0 for an accepted call.
pub fn checked_number(checked: Result<(), Refusal>) -> u64
    ensures { result ≡ checked_number checked }
{
    match checked {
        Ok(()) => 0,
        Err(refusal) => refusal.number(),
    }
}

// One test of an entry: the refusal that it gives where it fails.
#[tactic(auto, unfolding(crate::specs::Tests::checked_by))]
pub fn test(passes: bool, refusal: Refusal) -> Result<(), Refusal>
    ensures { result ≡ checked_by (test passes refusal ∷ []) }
{
    if passes { Ok(()) } else { Err(refusal) }
}

// 1: a multiple of 1 KiB, up to 1 MiB.
pub fn is_memory_size(bytes: u64) -> bool
    ensures { result ≡ is_memory_size bytes }
{
    bytes % MEMORY_UNIT == 0 && MEMORY_UNIT <= bytes && bytes <= MOST_MEMORY_BYTES
}

// 2.
pub fn is_amount_of_states(states: u64) -> bool
    ensures { result ≡ is_amount_of_states states }
{
    1 <= states && states <= MOST_ROWS as u64
}

// 3: -0.0 is within, NaN is not.
pub fn is_copy_ratio(ratio: f64) -> bool
    ensures { result ≡ is_copy_ratio ratio }
{
    0.0 <= ratio && ratio <= 1.0
}

// 4.
pub fn is_log_size(words: u64) -> bool
    ensures { result ≡ is_log_size words }
{
    words <= MOST_LOG
}

// 5: whether words and marks of these lengths hold just so many rows of `memory` memory words and `log` log words.
pub fn are_lengths(rows: u64, memory: u64, log: u64, words: u64, marks: u64) -> bool
    requires rows_le_most_rows { rows ≤ most_rows }
    requires memory_le_most_memory { memory ≤ most_memory }
    requires log_le_most_log { log ≤ most_log }
    ensures { result ≡ are_lengths rows memory log words marks }
{
    let row_words = (HEADER + REGISTERS) as u64 + memory + log;
    let row_marks = REGISTERS as u64 + memory;
    words == rows * row_words && marks == rows * row_marks
}

// 6.
pub(crate) fn is_whole(bytes: u64) -> bool
    ensures { result ≡ is_whole bytes }
{
    bytes % 8 == 0
}

// 7: whether a segment of so many bytes lies in a memory of `memory` words, or has none.
pub(crate) fn is_inside(memory: u64, address: u64, bytes: u64) -> bool
    ensures { result ≡ is_inside memory address bytes }
{
    bytes == 0 || address / 8 + bytes / 8 <= memory
}
