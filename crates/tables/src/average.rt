// Averaging: the mean of a state's counters, taken from a table.
ghost use Rattle.std.specs.Prelude.{◌≡◌, ◌+◌, ◌*◌, ◌≤◌, map, length, get_or};
ghost use Rattle.rows.specs.Lent.{seen};
ghost use Rattle.store.specs.Store.{most_marks};
ghost use Rattle.marked.specs.Gaps.{GapIn};
ghost use Rattle.means.specs.Means.{Counters, Scores, exact_mean};
ghost use Rattle.means.specs.Tallies.{tally, Within, most_counters};
ghost use Rattle.counting.specs.Cells.{byte_addresses};
ghost use Rattle.tables.specs.Taken.{Taken};
ghost use Rattle.tables.specs.Tables.{counters_from, score_from};

use crate::address::address_of;
use counting::cells::BYTES;
use marked::gap::Gap;
use means::{MeanType, Tally};
use rows::row::{HEADER, PC, RowRef};

// Takes in the eight counters of a concrete word.
fn tally_word(place: usize, x: u64, table: &[u32], so_far: Tally) -> Tally
    requires place { place ≤ most_marks }
    requires counters { Counters (map (λ a. get_or table.now a 0) (byte_addresses place x 8)) }
    requires small { Within (8 * place) so_far }
    ensures taken { Taken (λ a. get_or table.now a 0) so_far (byte_addresses place x 8) result }
    ensures small { Within (8 * (place + 1)) result }
{
    let mut t = so_far;
    for b in 0..BYTES {
        t = t.add(table[address_of(place, x, b)] as u64);
    }
    t
}

// The counters of a row, all of them in list order.
fn tally_row(row: RowRef, gap: Gap, table: &[u32]) -> Tally
    requires few { length row.marks.now ≤ most_marks }
    requires gap { GapIn row.marks.now gap }
    requires counters { Counters (counters_from table.now (seen row)) }
    ensures value { result ≡ tally (counters_from table.now (seen row.entry)) }
    ensures small { Within most_counters result }
{
    let mut t = tally_word(0, row.words[PC], table, Tally::new());
    let mut slot = gap.next_marked(row.marks, 0);
    while slot < row.marks.len() {
        t = tally_word(slot + 1, row.words[HEADER + slot], table, t);
        slot = gap.next_marked(row.marks, slot + 1);
    }
    t
}

// The score of a row by any table whose counters at the row's addresses are from 1 to 32,768.
pub fn average_row(row: RowRef, gap: Gap, table: &[u32], mean: MeanType) -> f64
    requires few { length row.marks.now ≤ most_marks }
    requires gap { GapIn row.marks.now gap }
    requires counters { Counters (counters_from table.now (seen row)) }
    ensures value { result ≡ score_from mean table.now (seen row.entry) }
    ensures near { Scores result (exact_mean mean (counters_from table.now (seen row.entry))) }
{
    let t = tally_row(row, gap, table);
    t.mean(mean)
}
