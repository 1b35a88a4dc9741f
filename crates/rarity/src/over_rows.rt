// Scores by counting over the rows: each counter is found anew, by looking at all rows.
ghost use Rattle.std.specs.Prelude.{◌≡◌, ◌+◌, ◌*◌, ◌≤◌, ◌<◌, length};
ghost use Rattle.store.specs.Lent.{rows_seen};
ghost use Rattle.means.specs.Tallies.{tally, Within, most_counters};
ghost use Rattle.counting.specs.Cells.{byte_addresses};
ghost use Rattle.counting.specs.Counters.{counter_in};
ghost use Rattle.counting.specs.Lent.{rows_taking};
ghost use Rattle.tables.specs.Taken.{Taken};
ghost use Rattle.rarity.specs.Own.{row_counters, row_score};
ghost use Rattle.rarity.specs.Scores.{flagged_scores};

use counting::cells::{BYTES, cell_of, place_at};
use counting::counter::counter;
use counting::taking::Taking;
use means::{MeanType, Tally};
use values::{Value, byte_of};

// Takes in the eight counters of a concrete word.
fn tally_word(rows: Taking, so_far: Tally, place: usize, x: u64) -> Tally
    requires place { place ≤ rows.store.layout.marks }
    requires small { Within (8 * place) so_far }
    ensures taken { Taken (counter_in (rows_taking rows.entry)) so_far (byte_addresses place x 8) result }
    ensures small { Within (8 * (place + 1)) result }
{
    let mut t = so_far;
    for b in 0..BYTES {
        t = t.add(counter(rows, cell_of(place, b), byte_of(x, b)));
    }
    t
}

// The counters of row r among the rows that take part, all of them in list order.
fn tally_row(rows: Taking, r: usize) -> Tally
    requires row { r < rows.store.layout.rows }
    ensures value { result ≡ tally (row_counters rows.entry r) }
    ensures small { Within most_counters result }
{
    let row = rows.store.row(r);
    let mut t = Tally::new();
    for place in 0..=rows.store.layout.marks {
        if let Value::Concrete(x) = place_at(row, place) {
            t = tally_word(rows, t, place, x);
        }
    }
    t
}

// The score of row r among the rows that take part.
#[tactic(auto, unfolding(crate::specs::Scores::score))]
fn score_row(rows: Taking, mean: MeanType, r: usize) -> f64
    requires row { r < rows.store.layout.rows }
    ensures { result ≡ row_score mean rows.entry r }
{
    let t = tally_row(rows, r);
    t.mean(mean)
}

// The scores of the rows that take part; 0 for the others.
pub(crate) fn score_over_rows(rows: Taking, mean: MeanType, scores: &mut [f64])
    requires a_score_each { length scores.old ≡ rows.store.layout.rows }
    ensures { scores.new ≡ flagged_scores mean rows.entry.flags.now (rows_seen rows.entry.store) }
{
    for r in 0..rows.store.layout.rows {
        scores[r] = if rows.flags[r] {
            score_row(rows, mean, r)
        } else {
            0.0
        };
    }
}
