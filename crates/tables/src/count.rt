// Counting: one more in the table for each address of a state.
ghost use Rattle.std.specs.Prelude.{◌≡◌, ◌≤◌, length};
ghost use Rattle.rows.specs.Lent.{seen};
ghost use Rattle.store.specs.Store.{most_marks, memory_of};
ghost use Rattle.store.specs.Lent.{rows_seen};
ghost use Rattle.marked.specs.Gaps.{GapIn};
ghost use Rattle.counting.specs.Cells.{byte_addresses, addresses_of};
ghost use Rattle.counting.specs.Lent.{rows_taking};
ghost use Rattle.tables.specs.Changes.{added, Room};
ghost use Rattle.tables.specs.Gaps.{GapEach};
ghost use Rattle.tables.specs.Tables.{table_length, zeros, increments, addresses_in, Counted};

use crate::address::address_of;
use counting::cells::BYTES;
use counting::taking::Taking;
use marked::gap::Gap;
use marked::next::next_marked;
use rows::row::{HEADER, PC, RowRef};

// The eight bytes of a concrete word.
fn count_word(place: usize, x: u64, table: &mut [u32])
    requires place { place ≤ most_marks }
    requires room { Room table.old (byte_addresses place x 8) }
    ensures { table.new ≡ added (byte_addresses place x 8) table.old }
{
    for b in 0..BYTES {
        table[address_of(place, x, b)] += 1;
    }
}

// What counting a row gives: the number of increments, and a gap in the marks of its slots.
#[derive(Clone, Copy)]
struct CountedRow {
    increments: u64,
    gap: Gap,
}

// The addresses of a row: those of pc and of the marked slots. The gap is the longest that is met.
fn count_row(row: RowRef, table: &mut [u32]) -> CountedRow
    requires few { length row.marks.now ≤ most_marks }
    requires room { Room table.old (addresses_of (seen row)) }
    ensures table { table.new ≡ added (addresses_of (seen row.entry)) table.old }
    ensures increments { result.increments ≡ length (addresses_of (seen row.entry)) }
    ensures gap { GapIn row.entry.marks.now result.gap }
{
    count_word(0, row.words[PC], table);
    let mut increments = BYTES;
    let mut slot = next_marked(row.marks, 0);
    let mut gap = Gap { from: 0, to: slot };
    while slot < row.marks.len() {
        count_word(slot + 1, row.words[HEADER + slot], table);
        increments += BYTES;
        let next = next_marked(row.marks, slot + 1);
        gap = gap.longer(Gap {
            from: slot + 1,
            to: next,
        });
        slot = next;
    }
    CountedRow { increments, gap }
}

// Counts the rows that take part, in a table of zeros, and notes a gap of each. Gives the number of increments.
pub fn count_rows(rows: Taking, table: &mut [u32], gaps: &mut [Gap]) -> u64
    requires table { table.old ≡ zeros (table_length (memory_of rows.store.layout)) }
    requires a_gap_each { rows.store.layout.rows ≤ length gaps.old }
    requires gaps { GapEach (rows_seen rows.store) gaps.old }
    ensures table { table.new ≡ added (addresses_in (rows_taking rows.entry)) table.old }
    ensures counted { Counted (rows_taking rows.entry) table.new }
    ensures increments { result ≡ increments (rows_taking rows.entry) }
    ensures gaps { GapEach (rows_seen rows.entry.store) gaps.new }
{
    let mut increments = 0;
    for r in 0..rows.store.layout.rows {
        if rows.flags[r] {
            let counted = count_row(rows.store.row(r), table);
            increments += counted.increments;
            gaps[r] = counted.gap;
        }
    }
    increments
}
