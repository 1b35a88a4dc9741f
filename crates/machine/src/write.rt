// The bytes of a write call, for whoever runs up to one.
ghost use Rattle.std.specs.Prelude.{◌≡◌, ◌+◌, ◌*◌, ◌/◌, ◌<◌, ◌≤◌, length};
ghost use Rattle.rows.specs.Rows.{memory_words};
ghost use Rattle.rows.specs.Lent.{seen, lent, SameSlices};
ghost use Rattle.calls.specs.Calls.{completed};
ghost use Rattle.machine.specs.Writes.{byte_at, bytes_from};

use calls::system::complete_write;
use rows::row::{RowMut, RowRef};
use values::{Value, byte_of};

// A word has this many bytes.
const BYTES: u64 = 8;

// The byte at an address of memory.
fn byte_at(row: RowRef, address: u64) -> u8
    requires { address / 8 < memory_words (seen row) }
    ensures { result ≡ byte_at (seen row.entry) address }
{
    match row.read_memory((address / BYTES) as usize) {
        Value::Concrete(word) => byte_of(word, address % BYTES),
        Value::Uninitialized => 0,
    }
}

// Copies the bytes of a write call that was handed out, from its buffer on, to an output of the call's size, and completes the call.
#[tactic(auto, unfolding(crate::specs::Writes::bytes_from))]
pub fn write_to(row: &mut RowMut, buffer: u64, output: &mut [u8])
    requires output_bound { buffer + length output.old ≤ 8 * memory_words (lent row.old) }
    ensures output_after { output.new ≡ bytes_from (length output.old) buffer (lent row.old) }
    ensures row_after { lent row.new ≡ completed (length output.old) (lent row.old) }
    ensures same_slices { SameSlices row.old row.new }
{
    let view = row.view();
    for k in 0..output.len() {
        output[k] = byte_at(view, buffer + k as u64);
    }
    complete_write(row, output.len() as u64);
}
