// Rarity for hosts: the rows of a lent store are scored among themselves, and nothing is asked of the caller.
// What is refused changes nothing.
#![tactic(auto)]

ghost use Rattle.std.specs.Prelude.{◌≡◌, ◌<◌, length, IfOk};
ghost use Rattle.checks.specs.Tests.{checked_by};
ghost use Rattle.store.specs.Lent.{rows_seen};
ghost use Rattle.store.specs.Store.{memory_of};
ghost use Rattle.tables.specs.Lent.{ZeroTable};
ghost use Rattle.tables.specs.Tables.{increments};
ghost use Rattle.rarity.specs.Scores.{scores_of, are_ordered};
ghost use Rattle.scoring.specs.ByTable.{uncounted};
ghost use Rattle.scoring.specs.Entry.{all_valid, size_tests, scoring_checked, ordered_answer, scoring_answer, scores_left, store_scores, error_number, scoring_number};
ghost use Rattle.scoring.specs.declared.ScoringError.TheVariants.{Refused};
ghost use Rattle.scoring.specs.Entry.{AlwaysScored, ScoresBounded};

pub mod by_table;

use checks::refusal::{
    Refusal, are_lengths, is_amount_of_states, is_log_size, is_memory_size, test,
};
use checks::valid_row::valid_row;
use counting::taking::Taking;
use means::MeanType;
use rarity::{are_ordered, score_rows};
use rows::limits::MOST_ROWS;
use store::layout::Layout;
use store::view::StoreRef;

// Why rows are not scored.
#[derive(Clone, Copy)]
pub enum ScoringError {
    // The Rust's `expect`: scores that cannot be ordered.
    ScoresUnordered,
    Refused(Refusal),
}

impl From<Refusal> for ScoringError {
    ghost from_gives = { λ refusal e. e ≡ Refused refusal };

    fn from(refusal: Refusal) -> ScoringError {
        ScoringError::Refused(refusal)
    }
}

impl ScoringError {
    // The number that hosts are told.
    pub fn number(self) -> u64
        ensures { result ≡ error_number self }
    {
        match self {
            ScoringError::ScoresUnordered => 31,
            ScoringError::Refused(refusal) => refusal.number(),
        }
    }
}

// The number that hosts are told: 0 for rows that are scored.
pub fn scoring_number(answer: Result<(), ScoringError>) -> u64
    ensures { result ≡ scoring_number answer }
{
    match answer {
        Ok(()) => 0,
        Err(error) => error.number(),
    }
}

// Whether all rows are such as executors can have.
pub(crate) fn all_valid(store: StoreRef) -> bool
    ensures { result ≡ all_valid (rows_seen store.entry) }
{
    for r in 0..store.layout.rows {
        if !valid_row(store.row(r)) {
            return false;
        }
    }
    true
}

#[tactic(auto, unfolding(checks::specs::Tests::checked_by))]
pub(crate) fn check_sizes(
    words: &[u64],
    marks: &[u8],
    memory: u64,
    log: u64,
    rows: u64,
    scores: usize,
) -> Result<(), Refusal>
    ensures { result ≡ checked_by (size_tests memory log rows (length words.now) (length marks.now) scores) }
{
    test(is_memory_size(memory), Refusal::MemorySize)?;
    test(is_amount_of_states(rows), Refusal::AmountOfStates)?;
    test(is_log_size(log), Refusal::LogSize)?;
    let lengths = are_lengths(
        rows,
        memory / 8,
        log,
        words.len() as u64,
        marks.len() as u64,
    );
    test(lengths && scores as u64 == rows, Refusal::LentLengths)
}

// Scores all rows, by the table if it has counters; the lent scores are written only if they can be ordered. Gives the number of increments that were
// made in the table.
#[tactic(auto, unfolding(crate::specs::Entry::scores_left))]
pub(crate) fn score_store(
    store: StoreRef,
    mean: MeanType,
    table: &mut [u32],
    scores: &mut [f64],
) -> Result<u64, ScoringError>
    requires one_each { length scores.old ≡ store.layout.rows }
    requires table { ZeroTable (memory_of store.layout) table.old }
    ensures value { uncounted result ≡ ordered_answer (are_ordered (scores_of mean (rows_seen store.entry))) }
    ensures increments { 0 < length table.old → IfOk result (λ n. n ≡ increments (rows_seen store.entry)) }
    ensures same_table { table.new ≡ table.old }
    ensures scores_after { scores.new ≡ scores_left result (scores_of mean (rows_seen store.entry)) scores.old }
{
    let n = store.layout.rows;
    let flags = [true; MOST_ROWS];
    let mut computed = [0.0; MOST_ROWS];
    let all = Taking {
        store,
        flags: &flags[0..n],
    };
    let increments = score_rows(all, mean, table, &mut computed[0..n]);
    if !are_ordered(&computed[0..n]) {
        return Err(ScoringError::ScoresUnordered);
    }
    scores.copy_from_slice(&computed[0..n]);
    Ok(increments)
}

// Scores `rows` rows of a memory of `memory` bytes and `log` log words each, one score a row.
#[tactic(auto, unfolding(crate::specs::Entry::scores_left))]
pub fn score_with_mean(
    words: &[u64],
    marks: &[u8],
    memory: u64,
    log: u64,
    rows: u64,
    mean: MeanType,
    scores: &mut [f64],
) -> Result<(), ScoringError>
    ensures value { result ≡ scoring_answer (scoring_checked memory log rows words.now marks.now scores.old)
        (store_scores memory log rows mean words.now marks.now) }
    ensures scores_after { scores.new
        ≡ scores_left result (store_scores memory log rows mean words.now marks.now) scores.old }
    ensures always_scored { AlwaysScored memory log rows words.now marks.now scores.old result }
    ensures scores_bounded { ScoresBounded memory log rows mean words.now marks.now scores.old scores.new }
{
    check_sizes(words, marks, memory, log, rows, scores.len())?;
    let store = StoreRef {
        words,
        marks,
        layout: Layout::new(rows as usize, memory / 8, log),
    };
    test(all_valid(store), Refusal::InvalidRow)?;
    score_store(store, mean, &mut [], scores)?;
    Ok(())
}
