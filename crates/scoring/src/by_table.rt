// Scoring in a lent table. The scores are the other entry's, and take less time.
ghost use Rattle.std.specs.Prelude.{◌≡◌, length};
ghost use Rattle.checks.specs.Tests.{checked_by};
ghost use Rattle.tables.specs.Lent.{table_left};
ghost use Rattle.scoring.specs.Entry.{scores_left, store_scores};
ghost use Rattle.scoring.specs.ByTable.{table_size_tests, table_scoring_checked, table_scoring_answer, TableAlwaysScored, TableScoresBounded};

use crate::{ScoringError, all_valid, check_sizes, score_store};
use checks::refusal::{Refusal, test};
use means::MeanType;
use store::layout::Layout;
use store::view::StoreRef;
use tables::clear::clear_table;
use tables::lent::check_table;

// Numbers 1, 2, 4 and 5, then 32.
fn check_table_sizes(
    words: &[u64],
    marks: &[u8],
    memory: u64,
    log: u64,
    rows: u64,
    table: usize,
    scores: usize,
) -> Result<(), Refusal>
    ensures { result ≡ checked_by (table_size_tests memory log rows (length words.now) (length marks.now) table scores) }
{
    check_sizes(words, marks, memory, log, rows, scores)?;
    check_table(memory / 8, table)
}

// As `score_with_mean`; the rows are counted in the table, which has 256 × (W + 320) counters. It may hold anything, and is zero afterwards. Answers the
// number of increments.
pub fn score_by_table(
    words: &[u64],
    marks: &[u8],
    memory: u64,
    log: u64,
    rows: u64,
    mean: MeanType,
    table: &mut [u32],
    scores: &mut [f64],
) -> Result<u64, ScoringError>
    ensures value { result ≡ table_scoring_answer memory log rows mean words.now marks.now table.old scores.old }
    ensures scores_after { scores.new
        ≡ scores_left result (store_scores memory log rows mean words.now marks.now) scores.old }
    ensures table_after { table.new
        ≡ table_left (table_scoring_checked memory log rows words.now marks.now table.old scores.old) table.old }
    ensures always_scored { TableAlwaysScored memory log rows words.now marks.now table.old scores.old result }
    ensures scores_bounded { TableScoresBounded memory log rows mean words.now marks.now table.old scores.old scores.new }
{
    check_table_sizes(words, marks, memory, log, rows, table.len(), scores.len())?;
    let store = StoreRef {
        words,
        marks,
        layout: Layout::new(rows as usize, memory / 8, log),
    };
    test(all_valid(store), Refusal::InvalidRow)?;
    clear_table(table);
    score_store(store, mean, table, scores)
}
