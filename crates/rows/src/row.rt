// Where a row keeps what (the Rust's State and the rest of Executor), and its slots: the registers and the memory words.
ghost use Rattle.std.specs.Prelude.{◌≡◌, ◌<◌, drop, length};
ghost use Rattle.rows.specs.Rows.{Shape};

use values::{Slots, Value, value_at};

// The first words of a row: the address of the next instruction,
pub const PC: usize = 0;

// the end of the data, which brk moves,
pub const BREAK: usize = 1;

// how many instructions were executed,
pub const DEPTH: usize = 2;

// the depth at which a run stops,
pub const LIMIT: usize = 3;

// how many input words were logged,
pub const LOG_COUNT: usize = 4;

// and, in a search, the round in which its first ancestor was created anew; no instruction reads or writes it.
pub const BORN: usize = 5;
// How many these are: slot n is word HEADER + n.
pub const HEADER: usize = 6;
// Slots below this are registers; memory word m is slot REGISTERS + m.
pub const REGISTERS: usize = 32;

// A row that is lent to be read.
#[derive(Clone, Copy)]
pub struct RowRef<'a> {
    pub words: &'a [u64],
    pub marks: &'a [u8],
    ghost shape: { Shape words.now marks.now },
}

impl<'a> RowRef<'a> {
    ghost use Rattle.rows.specs.Rows.{header, memory_words, log_start, slot_at, memory_at};
    ghost use Rattle.rows.specs.Lent.{seen};

    // All slots, the registers first.
    pub fn slots(&self) -> Slots<'a>
        ensures words { result.words.now ≡ drop header self.now.words.now }
        ensures marks { result.marks.now ≡ self.now.marks.now }
    {
        Slots {
            words: &self.words[HEADER..],
            marks: self.marks,
        }
    }

    // How many memory words there are.
    pub fn memory_words(&self) -> usize
        ensures { result ≡ memory_words (seen self.now) }
    {
        self.marks.len() - REGISTERS
    }

    // Where the log starts.
    pub fn log_start(&self) -> usize
        ensures { result ≡ log_start (seen self.now) }
    {
        self.marks.len() + HEADER
    }

    // The value in slot n.
    pub fn read_slot(&self, n: usize) -> Value
        requires { n < length self.now.marks.now }
        ensures { result ≡ slot_at (seen self.now) n }
    {
        value_at(&self.words[HEADER..], self.marks, n)
    }

    // The value of memory word m.
    pub fn read_memory(&self, m: usize) -> Value
        requires { m < memory_words (seen self.now) }
        ensures { result ≡ memory_at (seen self.now) m }
    {
        self.read_slot(REGISTERS + m)
    }
}

// A row that is lent to be changed.
#[derive(Drop)]
pub struct RowMut<'a> {
    pub words: &'a mut [u64],
    pub marks: &'a mut [u8],
    ghost shape: { Shape words.now marks.now },
}

impl<'a> RowMut<'a> {
    ghost use Rattle.rows.specs.Rows.{memory_words, blank, set_slot, set_memory};
    ghost use Rattle.rows.specs.Lent.{lent, SameSlices};

    // The same row, to be read.
    pub fn view(&self) -> RowRef<'_>
        ensures words { result.words.now ≡ self.now.words.now }
        ensures marks { result.marks.now ≡ self.now.marks.now }
    {
        RowRef {
            words: &*self.words,
            marks: &*self.marks,
        }
    }

    // Sets all words and marks to zero.
    pub fn clear(&mut self)
        ensures row_after { lent self.new ≡ blank (length self.old.words.now) (length self.old.marks.now) }
        ensures same_slices { SameSlices self.old self.new }
    {
        self.words.fill(0);
        self.marks.fill(0);
    }

    // Stores a value in slot n: an uninitialised one as word 0 with mark 0.
    pub fn write_slot(&mut self, n: usize, value: Value)
        requires { n < length self.old.marks.now }
        ensures row_after { lent self.new ≡ set_slot n value (lent self.old) }
        ensures same_slices { SameSlices self.old self.new }
    {
        match value {
            Value::Concrete(x) => {
                self.words[HEADER + n] = x;
                self.marks[n] = 1;
            }
            Value::Uninitialized => {
                self.words[HEADER + n] = 0;
                self.marks[n] = 0;
            }
        }
    }

    // Stores a value in memory word m.
    pub fn write_memory(&mut self, m: usize, value: Value)
        requires { m < memory_words (lent self.old) }
        ensures row_after { lent self.new ≡ set_memory m value (lent self.old) }
        ensures same_slices { SameSlices self.old self.new }
    {
        self.write_slot(REGISTERS + m, value)
    }
}
