// The places of a row, the cells of their bytes, and how often one row has a byte value in a cell.
ghost use Rattle.std.specs.Prelude.{◌≡◌, ◌≤◌, ◌<◌, length};
ghost use Rattle.rows.specs.Lent.{seen};
ghost use Rattle.store.specs.Store.{most_marks};
ghost use Rattle.counting.specs.Cells.{place_at, base_of, cell_of, address_of, addresses_of};
ghost use Rattle.counting.specs.Counters.{occurrences};
ghost use Rattle.counting.specs.Probes.{place_of, probe};

use rows::row::{PC, REGISTERS, RowRef};
use values::{Value, byte_of};

// The cells of the lowest bytes: pc is in cell 0, register r in FIRST_REGISTER_CELL + r, memory word m in FIRST_MEMORY_CELL + m.
const FIRST_REGISTER_CELL: usize = 8;

const FIRST_MEMORY_CELL: usize = 264;

// The bytes of a word lie so many cells apart.
const BYTE_STRIDE: usize = 8;

// A word has so many bytes.
pub const BYTES: u64 = 8;

// The value at a place: pc is place 0, slot n is place 1 + n.
#[tactic(auto, unfolding(crate::specs::Cells::place_at))]
pub fn place_at(row: RowRef, place: usize) -> Value
    requires { place ≤ length row.marks.now }
    ensures { result ≡ place_at (seen row.entry) place }
{
    if place == 0 {
        Value::Concrete(row.words[PC])
    } else {
        row.read_slot(place - 1)
    }
}

// The cell of a place's lowest byte.
#[tactic(auto, using(crate::proofs::Places::base_zero, crate::proofs::Places::base_slot))]
pub fn base_of(place: usize) -> usize
    requires { place ≤ most_marks }
    ensures { result ≡ base_of place }
{
    if place == 0 {
        return 0;
    }
    let slot = place - 1;
    if slot < REGISTERS {
        FIRST_REGISTER_CELL + slot
    } else {
        FIRST_MEMORY_CELL + (slot - REGISTERS)
    }
}

// The cell of byte b of a place's word.
#[tactic(auto, using(crate::proofs::Places::base_most))]
pub fn cell_of(place: usize, b: u64) -> usize
    requires place { place ≤ most_marks }
    requires byte { b < 8 }
    ensures { result ≡ cell_of place b }
{
    base_of(place) + BYTE_STRIDE * (b as usize)
}

// The place whose lowest byte is in a cell: one at most.
#[tactic(auto, unfolding(crate::specs::Probes::place_of))]
fn place_of(base: usize) -> Option<usize>
    ensures { result ≡ place_of base }
{
    if base == 0 {
        return Some(0);
    }
    if base < FIRST_REGISTER_CELL {
        return None;
    }
    let register = base - FIRST_REGISTER_CELL;
    if register < REGISTERS {
        return Some(1 + register);
    }
    if base < FIRST_MEMORY_CELL {
        return None;
    }
    Some(1 + REGISTERS + (base - FIRST_MEMORY_CELL))
}

// Whether a row has a byte value in a cell as byte b of a word. At most one word has its byte b in that cell.
#[tactic(auto, unfolding(crate::specs::Probes::probe, crate::specs::Probes::matches_at, crate::specs::Probes::matches))]
fn hit(row: RowRef, cell: usize, byte: u8, b: u64) -> bool
    requires { b < 8 }
    ensures { result ≡ probe (seen row.entry) cell byte b }
{
    let up = BYTE_STRIDE * (b as usize);
    if cell < up {
        return false;
    }
    let Some(place) = place_of(cell - up) else {
        return false;
    };
    if row.marks.len() < place {
        return false;
    }
    match place_at(row, place) {
        Value::Concrete(x) => byte_of(x, b) == byte,
        Value::Uninitialized => false,
    }
}

// How often a row has a byte value in a cell.
pub(crate) fn hits(row: RowRef, cell: usize, byte: u8) -> u64
    ensures value { result ≡ occurrences (address_of cell byte) (addresses_of (seen row.entry)) }
    ensures at_most_eight { result ≤ 8 }
{
    let mut n = 0;
    for b in 0..BYTES {
        if hit(row, cell, byte, b) {
            n += 1;
        }
    }
    n
}
