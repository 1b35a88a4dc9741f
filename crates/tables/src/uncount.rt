// What was counted is taken out again: 0 at each address of a state.
ghost use Rattle.std.specs.Prelude.{◌≡◌, ◌≤◌, length};
ghost use Rattle.rows.specs.Lent.{seen};
ghost use Rattle.store.specs.Store.{most_marks};
ghost use Rattle.store.specs.Lent.{rows_seen};
ghost use Rattle.marked.specs.Gaps.{GapIn};
ghost use Rattle.counting.specs.Cells.{byte_addresses, addresses_of};
ghost use Rattle.counting.specs.Lent.{rows_taking};
ghost use Rattle.tables.specs.Changes.{wiped, Inside};
ghost use Rattle.tables.specs.Gaps.{GapEach};
ghost use Rattle.tables.specs.Tables.{addresses_in};

use crate::address::address_of;
use counting::cells::BYTES;
use counting::taking::Taking;
use marked::gap::Gap;
use rows::row::{HEADER, PC, RowRef};

// The eight bytes of a concrete word.
fn uncount_word(place: usize, x: u64, table: &mut [u32])
    requires place { place ≤ most_marks }
    requires inside { Inside (byte_addresses place x 8) (length table.old) }
    ensures { table.new ≡ wiped (byte_addresses place x 8) table.old }
{
    for b in 0..BYTES {
        table[address_of(place, x, b)] = 0;
    }
}

// The addresses of a row.
fn uncount_row(row: RowRef, gap: Gap, table: &mut [u32])
    requires few { length row.marks.now ≤ most_marks }
    requires gap { GapIn row.marks.now gap }
    requires inside { Inside (addresses_of (seen row)) (length table.old) }
    ensures { table.new ≡ wiped (addresses_of (seen row.entry)) table.old }
{
    uncount_word(0, row.words[PC], table);
    let mut slot = gap.next_marked(row.marks, 0);
    while slot < row.marks.len() {
        uncount_word(slot + 1, row.words[HEADER + slot], table);
        slot = gap.next_marked(row.marks, slot + 1);
    }
}

// The addresses of the rows that take part.
pub fn uncount_rows(rows: Taking, gaps: &[Gap], table: &mut [u32])
    requires inside { Inside (addresses_in (rows_taking rows)) (length table.old) }
    requires a_gap_each { rows.store.layout.rows ≤ length gaps.now }
    requires gaps { GapEach (rows_seen rows.store) gaps.now }
    ensures { table.new ≡ wiped (addresses_in (rows_taking rows.entry)) table.old }
{
    for r in 0..rows.store.layout.rows {
        if rows.flags[r] {
            uncount_row(rows.store.row(r), gaps[r], table);
        }
    }
}
