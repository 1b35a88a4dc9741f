// Every executor run for a step, in row order (the Rust's run_all). For the layers above.
#![tactic(auto)]

ghost use Rattle.std.specs.Prelude.{List, [], ◌∷◌, ◌++◌, map, ◌≡◌, ◌+◌, ◌<◌, ◌^◌, length, set};
ghost use Rattle.rows.specs.Rows.{limit_of};
ghost use Rattle.machine.specs.Runs.{Finished};
ghost use Rattle.store.specs.Store.{nth_row};
ghost use Rattle.store.specs.Lent.{rows_lent, SameStore};
ghost use Rattle.rounds.specs.Rounds.{run_all, row_after, is_running, running_flag, outcome_of};
ghost use Rattle.running.specs.Running.{LimitsAllow, all_ran};
ghost use Rattle.running.specs.RowRuns.{row_run, with_row_run};

use answers::finding::Finding;
use answers::outcome::{Outcome, Progress};
use machine::run::{Ran, run};
use rounds::call::Ended;
use store::layout::Layout;
use store::view::StoreMut;

// The outcome of the rows up to `row`, from that of the rows before it and its own run: a bug stands against an error, and either
// against what later rows meet of its kind.
fn choose(best: Finding, row: usize, ran: Ran) -> Finding
    ensures { (before : List Finished) (last : Finished) → best ≡ outcome_of before → row ≡ length before → ran ≡ last.ran
        → result ≡ outcome_of (before ++ (last ∷ [])) }
{
    let Progress::Ended(outcome) = ran.progress else {
        return best;
    };
    let pc = ran.pc;
    match outcome {
        Outcome::Exited => best,
        Outcome::Found(bug) => match best {
            Finding::Found { .. } => best,
            _ => Finding::Found { bug, row, pc },
        },
        Outcome::Failed(error) => match best {
            Finding::Nothing => Finding::Failed { error, row, pc },
            _ => best,
        },
    }
}

fn still_running(progress: Progress) -> bool
    ensures { result ≡ is_running progress }
{
    matches!(progress, Progress::Running)
}

// Runs row r where it lies, and flags it.
fn run_row(
    store: &mut StoreMut,
    running: &mut [bool],
    step: u32,
    tape: &[u64],
    used: usize,
    r: usize,
) -> Ran
    requires running_len { length running.old ≡ store.old.layout.rows }
    requires r_lt_rows { r < store.old.layout.rows }
    requires step_bound { limit_of (nth_row (rows_lent store.old) r) + step < 2 ^ 64 }
    ensures value { result ≡ (row_run step tape.now used r (rows_lent store.old)).ran }
    ensures rows_after { rows_lent store.new ≡ with_row_run step tape.now used r (rows_lent store.old) }
    ensures running_after { running.new ≡ set running.old r (is_running result.progress) }
    ensures same_store { SameStore store.old store.new }
{
    let Layout { words, marks, .. } = store.layout;
    let ran = run(
        &mut store.words[r * words..r * words + words],
        &mut store.marks[r * marks..r * marks + marks],
        step,
        tape,
        used,
    );
    running[r] = still_running(ran.progress);
    ran
}

// Runs all rows, even past a bug, and flags those that are still running. Answers the first bug in row order, else the first error,
// else nothing, and how many tape words are used.
pub fn run_all(
    store: &mut StoreMut,
    running: &mut [bool],
    step: u32,
    tape: &[u64],
    used: usize,
) -> Ended
    requires running_len { length running.old ≡ store.old.layout.rows }
    requires limits_allow { LimitsAllow step (rows_lent store.old) }
    ensures value { result ≡ all_ran used (run_all step tape.now used (rows_lent store.old)) }
    ensures rows_after { rows_lent store.new ≡ map row_after (run_all step tape.now used (rows_lent store.old)) }
    ensures running_after { running.new ≡ map running_flag (run_all step tape.now used (rows_lent store.old)) }
    ensures same_store { SameStore store.old store.new }
{
    let mut finding = Finding::Nothing;
    let mut at = used;
    for r in 0..store.layout.rows {
        let ran = run_row(store, running, step, tape, at, r);
        finding = choose(finding, r, ran);
        at = ran.used;
    }
    Ended { finding, used: at }
}
