// Counters over the rows that take part.
ghost use Rattle.std.specs.Prelude.{◌≡◌, ◌≤◌};
ghost use Rattle.counting.specs.Cells.{address_of};
ghost use Rattle.counting.specs.Counters.{highest_counter, counter_in};
ghost use Rattle.counting.specs.Lent.{rows_taking};

use crate::cells::hits;
use crate::taking::Taking;

// How often the rows that take part have a byte value in a cell.
pub fn counter(rows: Taking, cell: usize, byte: u8) -> u64
    ensures value { result ≡ counter_in (rows_taking rows.entry) (address_of cell byte) }
    ensures at_most { result ≤ highest_counter }
{
    let mut n = 0;
    for r in 0..rows.store.layout.rows {
        if rows.flags[r] {
            n += hits(rows.store.row(r), cell, byte);
        }
    }
    n
}
