// One round of a search: filling, running, and keeping the rarest. For the layers above.
#![tactic(auto)]

ghost use Rattle.std.specs.Prelude.{◌≡◌, length};
ghost use Rattle.store.specs.Store.{memory_of};
ghost use Rattle.store.specs.Lent.{rows_lent, SameStore};
ghost use Rattle.tables.specs.Lent.{ZeroTable};
ghost use Rattle.counting.specs.Counters.{taking};
ghost use Rattle.rounds.specs.Handed.{call_of, Callable, start_of, Holding};
ghost use Rattle.rounds.specs.Rounds.{selected, ran_on};
ghost use Rattle.running.specs.Running.{LimitsAllow};
ghost use Rattle.round.specs.After.{round_with_filling, after_in, Ready};

use answers::finding::Finding;
use counting::taking::Taking;
use filling::create_missing_executors;
use options::RaritySimulationOptions;
use rarity::{are_ordered, score_rows};
use rounds::call::{Call, Ended, Start};
use rows::limits::MOST_ROWS;
use running::run_all;
use selection::select_rarest;
use store::view::StoreMut;

// Keeps the rarest of the rows that are still running. Here and below an `Err` ends the search.
fn keep_rarest(
    store: &mut StoreMut,
    table: &mut [u32],
    options: RaritySimulationOptions,
    running: &[bool],
    used: usize,
) -> Result<Start, Ended>
    requires table { ZeroTable (memory_of store.old.layout) table.old }
    requires running_len { length running.now ≡ store.old.layout.rows }
    ensures result_after { after_in store.new result
        ≡ selected options (rows_lent store.old) used (taking running.now (rows_lent store.old)) }
    ensures ready { Ready store.new result }
    ensures same_store { SameStore store.old store.new }
    ensures same_table { table.new ≡ table.old }
{
    let n = store.layout.rows;
    let mut scores = [0.0; MOST_ROWS];
    let rows = Taking {
        store: store.view(),
        flags: running,
    };
    score_rows(rows, options.mean, table, &mut scores[0..n]);
    if !are_ordered(&scores[0..n]) {
        return Err(Ended {
            finding: Finding::ScoresUnordered,
            used,
        });
    }
    let kept = select_rarest(store, &scores[0..n], running, options.selection as usize);
    Ok(Start { kept, used })
}

// Runs a filled store, and keeps the rarest rows if no bug and no error was met.
fn run_and_keep(
    store: &mut StoreMut,
    table: &mut [u32],
    options: RaritySimulationOptions,
    tape: &[u64],
    used: usize,
) -> Result<Start, Ended>
    requires table { ZeroTable (memory_of store.old.layout) table.old }
    requires limits_allow { LimitsAllow options.step_size (rows_lent store.old) }
    ensures result_after { after_in store.new result ≡ (ran_on options tape.now used (rows_lent store.old)).after }
    ensures ready { Ready store.new result }
    ensures same_store { SameStore store.old store.new }
    ensures same_table { table.new ≡ table.old }
{
    let n = store.layout.rows;
    let mut running = [false; MOST_ROWS];
    let all = run_all(store, &mut running[0..n], options.step_size, tape, used);
    let Finding::Nothing = all.finding else {
        return Err(all);
    };
    keep_rarest(store, table, options, &running[0..n], all.used)
}

// Round `number`, whole, on a store that holds the kept rows. Rows are scored by the table, or over the rows where it has no counters;
// the search is the same.
pub fn round(
    store: &mut StoreMut,
    table: &mut [u32],
    call: Call,
    number: u32,
    start: Start,
) -> Result<Start, Ended>
    requires table { ZeroTable (memory_of store.old.layout) table.old }
    requires holding { Holding store.old start.kept }
    requires callable { Callable (call_of store.old.layout call) }
    requires limits_allow { LimitsAllow call.options.step_size (start_of store.old start).kept }
    ensures result_after { after_in store.new result
        ≡ round_with_filling (call_of store.old.layout call.entry) number (start_of store.old start) }
    ensures ready { Ready store.new result }
    ensures same_store { SameStore store.old store.new }
    ensures same_table { table.new ≡ table.old }
{
    let used = create_missing_executors(store, call, number, start)?;
    run_and_keep(store, table, call.options, call.tape, used)
}
