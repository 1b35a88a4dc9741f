// A program loaded into a row: a new executor (the Rust's Executor::new and load_segment). For the layers above.
#![tactic(auto)]

ghost use Rattle.std.specs.Prelude.{◌≡◌, ◌+◌, ◌<◌, ◌≤◌, length};
ghost use Rattle.values.specs.Values.{register_count};
ghost use Rattle.rows.specs.Rows.{row, Shape, memory_in, memory_words};
ghost use Rattle.rows.specs.Lent.{lent, SameSlices};
ghost use Rattle.loader.specs.Loading.{image, word_at, loaded, started, programmed, new_executor, Fits};
ghost use Rattle.loader.specs.Lent.{segment_seen, program_seen, Loadable};

use rows::row::{BREAK, PC, RowMut};
use values::Value;

// A part of a program: where it is to lie, and its bytes.
#[derive(Clone, Copy)]
pub struct Segment<'a> {
    pub address: u64,
    pub bytes: &'a [u8],
}

// A program that is lent to be loaded.
#[derive(Clone, Copy)]
pub struct Program<'a> {
    pub code: Segment<'a>,
    pub data: Segment<'a>,
}

impl<'a> Program<'a> {
    // The program of code and data, each at its address.
    pub fn new(code_address: u64, code: &'a [u8], data_address: u64, data: &'a [u8]) -> Program<'a>
        ensures { program_seen result ≡ image code_address code.now data_address «data».now }
    {
        Program {
            code: Segment {
                address: code_address,
                bytes: code,
            },
            data: Segment {
                address: data_address,
                bytes: data,
            },
        }
    }
}

const ZERO: usize = 0;

const SP: usize = 2;

// Eight bytes from place i on, the lowest first.
pub fn word_at(bytes: &[u8], i: usize) -> u64
    requires { i + 8 ≤ length bytes.now }
    ensures { result ≡ word_at bytes.now i }
{
    u64::from_le_bytes([
        bytes[i],
        bytes[i + 1],
        bytes[i + 2],
        bytes[i + 3],
        bytes[i + 4],
        bytes[i + 5],
        bytes[i + 6],
        bytes[i + 7],
    ])
}

// Loads a segment, which comes in whole words, from memory word address/8 on.
#[tactic(auto, unfolding(crate::specs::Loading::loaded))]
fn load_segment(row: &mut RowMut, segment: Segment)
    requires { Fits (memory_words (lent row.old)) (segment_seen segment) }
    ensures row_after { lent row.new ≡ loaded (segment_seen segment.entry) (lent row.old) }
    ensures same_slices { SameSlices row.old row.new }
{
    let n = segment.bytes.len() / 8;
    let m = (segment.address / 8) as usize;
    for k in 0..n {
        row.write_memory(m + k, Value::Concrete(word_at(segment.bytes, 8 * k)));
    }
}

#[tactic(auto, unfolding(crate::specs::Loading::started))]
fn start(row: &mut RowMut)
    requires { 0 < memory_words (lent row.old) }
    ensures row_after { lent row.new ≡ started (lent row.old) }
    ensures same_slices { SameSlices row.old row.new }
{
    let memory = row.view().memory_words();
    row.write_slot(SP, Value::Concrete((8 * memory - 8) as u64));
    row.write_slot(ZERO, Value::Concrete(0));
    row.write_memory(memory - 1, Value::Concrete(0));
}

#[tactic(auto, unfolding(crate::specs::Loading::programmed))]
fn program_row(row: &mut RowMut, program: Program)
    requires some_memory { 0 < memory_words (lent row.old) }
    requires loadable { Loadable (memory_words (lent row.old)) (program_seen program) }
    ensures row_after { lent row.new ≡ programmed (program_seen program.entry) (lent row.old) }
    ensures same_slices { SameSlices row.old row.new }
{
    start(row);
    load_segment(row, program.code);
    load_segment(row, program.data);
    row.words[PC] = program.code.address;
    row.words[BREAK] = program.data.address + program.data.bytes.len() as u64;
}

// Sets a row up to run a program; what it held before is not cleared.
pub fn load_program(words: &mut [u64], marks: &mut [u8], program: Program)
    requires shape { Shape words.old marks.old }
    requires some_memory { register_count < length marks.old }
    requires loadable { Loadable (memory_in marks.old) (program_seen program) }
    ensures { row words.new marks.new ≡ programmed (program_seen program.entry) (row words.old marks.old) }
{
    let mut row = RowMut { words, marks };
    program_row(&mut row, program);
}

// A new executor in a row, whatever the row held.
#[tactic(auto, unfolding(crate::specs::Loading::new_executor))]
pub fn new_executor(words: &mut [u64], marks: &mut [u8], program: Program)
    requires shape { Shape words.old marks.old }
    requires some_memory { register_count < length marks.old }
    requires loadable { Loadable (memory_in marks.old) (program_seen program) }
    ensures { row words.new marks.new ≡ new_executor (program_seen program.entry) (length words.old) (length marks.old) }
{
    let mut row = RowMut { words, marks };
    row.clear();
    program_row(&mut row, program);
}
