// Scores by a table: the rows are counted in it once, each score is taken from it, and it is cleared again.
ghost use Rattle.std.specs.Prelude.{◌≡◌, ◌≤◌, length};
ghost use Rattle.store.specs.Store.{memory_of};
ghost use Rattle.store.specs.Lent.{rows_seen};
ghost use Rattle.counting.specs.Lent.{rows_taking};
ghost use Rattle.tables.specs.Gaps.{GapEach};
ghost use Rattle.tables.specs.Tables.{table_length, zeros, increments, Counted};
ghost use Rattle.rarity.specs.Scores.{flagged_scores};

use counting::taking::Taking;
use marked::gap::Gap;
use means::MeanType;
use rows::limits::MOST_ROWS;
use tables::average::average_row;
use tables::count::count_rows;
use tables::uncount::uncount_rows;

// The scores of the rows that take part, from a table that has their counters; 0 for the others.
fn average_rows(rows: Taking, mean: MeanType, gaps: &[Gap], table: &[u32], scores: &mut [f64])
    requires a_score_each { length scores.old ≡ rows.store.layout.rows }
    requires a_gap_each { rows.store.layout.rows ≤ length gaps.now }
    requires gaps { GapEach (rows_seen rows.store) gaps.now }
    requires exact { length table.now ≡ table_length (memory_of rows.store.layout) }
    requires counted { Counted (rows_taking rows) table.now }
    ensures { scores.new ≡ flagged_scores mean rows.entry.flags.now (rows_seen rows.entry.store) }
{
    for r in 0..rows.store.layout.rows {
        scores[r] = if rows.flags[r] {
            average_row(rows.store.row(r), gaps[r], table, mean)
        } else {
            0.0
        };
    }
}

// The scores of the rows that take part; 0 for the others. Gives the number of increments.
pub(crate) fn score_by_table(
    rows: Taking,
    mean: MeanType,
    table: &mut [u32],
    scores: &mut [f64],
) -> u64
    requires a_score_each { length scores.old ≡ rows.store.layout.rows }
    requires table { table.old ≡ zeros (table_length (memory_of rows.store.layout)) }
    ensures scores { scores.new ≡ flagged_scores mean rows.entry.flags.now (rows_seen rows.entry.store) }
    ensures same_table { table.new ≡ table.old }
    ensures increments { result ≡ increments (rows_taking rows.entry) }
{
    let mut gaps = [Gap { from: 0, to: 0 }; MOST_ROWS];
    let increments = count_rows(rows, table, &mut gaps);
    average_rows(rows, mean, &gaps, table, scores);
    uncount_rows(rows, &gaps, table);
    increments
}
