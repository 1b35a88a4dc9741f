// The counters of a line, counted over all rows.
ghost use Rattle.std.specs.Prelude.{◌+◌, ◌≤◌};
ghost use Rattle.rows.specs.Rows.{header};

use crate::columns::{LOG, MEMORY, ROWS, TRIPLE};
use counting::counter::counter;
use counting::taking::Taking;
use replay_lists::columns::{length_at, number_at};
use rows::row::REGISTERS;
use store::layout::Layout;
use store::view::StoreRef;

// The most that a store of the list has.
const MOST_ROWS: usize = 16;

const MOST_MEMORY: usize = 2048;

const MOST_LOG: usize = 16;

// Columns of a counter.
const CELL: usize = 0;

const BYTE: usize = 1;

const COUNTER: usize = 2;

// How the line's store is cut into rows; what is above the most is cut down to it.
fn layout_of(numbers: &[u64]) -> Layout
    ensures { (result.rows ≤ 16) × (result.marks ≤ 288) × (result.words ≤ 310) × (result.marks + header ≤ result.words) }
{
    let rows = length_at(numbers, ROWS, MOST_ROWS);
    let memory = length_at(numbers, MEMORY, MOST_MEMORY) / 8;
    let log = length_at(numbers, LOG, MOST_LOG);
    Layout::new(rows, memory as u64, log as u64)
}

// Whether a counter is so.
fn is_counter(store: StoreRef, counted: &[u64]) -> bool
    requires { store.layout.rows ≤ 16 }
{
    let cell = number_at(counted, CELL) as usize;
    let Ok(byte) = u8::try_from(number_at(counted, BYTE)) else {
        return false;
    };
    let flags = [true; MOST_ROWS];
    let all = Taking {
        store,
        flags: &flags[..store.layout.rows],
    };
    counter(all, cell, byte) == number_at(counted, COUNTER)
}

// Whether all counters of the line are so; words and marks must be those of the line's rows and no more.
pub(crate) fn are_counters(numbers: &[u64], counters: &[u64], words: &[u64], marks: &[u8]) -> bool {
    let layout = layout_of(numbers);
    if counters.is_empty() {
        return true;
    }
    if layout.marks <= REGISTERS
        || words.len() != layout.rows * layout.words
        || marks.len() != layout.rows * layout.marks
    {
        return false;
    }
    let store = StoreRef {
        words,
        marks,
        layout,
    };
    counters
        .chunks_exact(TRIPLE)
        .all(|counted| is_counter(store, counted))
}
