// Scores of the rows of a store (the Rust's compute_scores). For the layers above.
#![tactic(auto)]

ghost use Rattle.std.specs.Prelude.{◌≡◌, ◌<◌, length};
ghost use Rattle.store.specs.Store.{memory_of};
ghost use Rattle.store.specs.Lent.{rows_seen};
ghost use Rattle.counting.specs.Lent.{rows_taking};
ghost use Rattle.tables.specs.Lent.{ZeroTable};
ghost use Rattle.tables.specs.Tables.{increments};
ghost use Rattle.rarity.specs.Scores.{flagged_scores, are_ordered};

mod by_table;
mod over_rows;

use by_table::score_by_table;
use counting::taking::Taking;
use means::MeanType;
use over_rows::score_over_rows;

// The scores of the rows that take part; 0 for the others. A table that has no counters is not used, and the rows are counted over the store. The scores
// are the same. Gives the number of increments that were made in the table, which is zero again.
pub fn score_rows(rows: Taking, mean: MeanType, table: &mut [u32], scores: &mut [f64]) -> u64
    requires a_score_each { length scores.old ≡ rows.store.layout.rows }
    requires table { ZeroTable (memory_of rows.store.layout) table.old }
    ensures scores { scores.new ≡ flagged_scores mean rows.entry.flags.now (rows_seen rows.entry.store) }
    ensures same_table { table.new ≡ table.old }
    ensures increments { 0 < length table.old → result ≡ increments (rows_taking rows.entry) }
{
    if table.is_empty() {
        score_over_rows(rows, mean, scores);
        return 0;
    }
    score_by_table(rows, mean, table, scores)
}

// Whether all scores can be ordered: one that cannot be is not even at most itself.
pub fn are_ordered(scores: &[f64]) -> bool
    ensures { result ≡ are_ordered scores.now }
{
    scores.iter().all(|s| *s <= *s)
}
