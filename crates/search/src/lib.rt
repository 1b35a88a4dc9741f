// The rarity search for hosts: a store is lent, and nothing is asked of the caller. What is refused changes nothing.
#![tactic(auto)]

ghost use Rattle.std.specs.Prelude.{◌≡◌, Ok};
ghost use Rattle.checks.specs.Tests.{checked_by};
ghost use Rattle.loader.specs.Lent.{program_seen};
ghost use Rattle.store.specs.Store.{Fit, memory_of};
ghost use Rattle.store.specs.Lent.{rows_lent, SameStore};
ghost use Rattle.tables.specs.Lent.{ZeroTable};
ghost use Rattle.rounds.specs.Handed.{call_of, Callable, Holding};
ghost use Rattle.rounds.specs.Rounds.{searched};
ghost use Rattle.search.specs.Searching.{ended_of, searched_as};
ghost use Rattle.search.specs.Entry.{option_tests, call_tests, left, left_by, search_entry, Demanded, AgesTold};

pub mod answer;
pub mod by_table;

use answers::finding::Finding;
use checks::refusal::{
    Refusal, are_lengths, is_amount_of_states, is_copy_ratio, is_log_size, is_memory_size, test,
};
use checks::segments::check_segments;
use loader::Program;
use options::RaritySimulationOptions;
use round::round;
use rounds::call::{Call, Ended, Start};
use store::layout::Layout;
use store::view::StoreMut;

// Numbers 1 to 5.
#[tactic(auto, unfolding(checks::specs::Tests::checked_by))]
pub(crate) fn check_options(
    options: RaritySimulationOptions,
    log: u64,
    words: usize,
    marks: usize,
) -> Result<(), Refusal>
    ensures { result ≡ checked_by (option_tests options log words marks) }
{
    let memory = options.memory_size;
    let states = options.amount_of_states;
    test(is_memory_size(memory), Refusal::MemorySize)?;
    test(is_amount_of_states(states), Refusal::AmountOfStates)?;
    test(is_copy_ratio(options.copy_init_ratio), Refusal::CopyRatio)?;
    test(is_log_size(log), Refusal::LogSize)?;
    test(
        are_lengths(states, memory / 8, log, words as u64, marks as u64),
        Refusal::LentLengths,
    )
}

// Numbers 1 to 7.
fn check_call(
    options: RaritySimulationOptions,
    log: u64,
    words: usize,
    marks: usize,
    program: Program,
) -> Result<(), Refusal>
    ensures { result ≡ checked_by (call_tests options log (program_seen program.entry) words marks) }
{
    check_options(options, log, words, marks)?;
    check_segments(options.memory_size / 8, program)
}

// The rounds, from a zeroed store on. Answers what another round would start from, or how one of them ended the search.
fn search_rounds(store: &mut StoreMut, table: &mut [u32], call: Call) -> Result<Start, Ended>
    requires table { ZeroTable (memory_of store.old.layout) table.old }
    requires holding { Holding store.old 0 }
    requires callable { Callable (call_of store.old.layout call) }
    ensures searched { searched_as (ended_of result) (rows_lent store.new) (searched (call_of store.old.layout call.entry)) }
    ensures same_store { SameStore store.old store.new }
    ensures same_table { table.new ≡ table.old }
{
    let mut start = Start { kept: 0, used: 0 };
    for number in 0..call.options.iterations {
        start = round(store, table, call, number, start)?;
    }
    Ok(start)
}

// How a search ends: as the round says that ended it, or after the last with nothing found.
fn ended_of(rounds: Result<Start, Ended>) -> Ended
    ensures { result ≡ ended_of rounds }
{
    match rounds {
        Ok(start) => Ended {
            finding: Finding::Nothing,
            used: start.used,
        },
        Err(ended) => ended,
    }
}

// The search that an accepted call asks for, whatever the store held.
fn search_store(store: &mut StoreMut, table: &mut [u32], call: Call) -> Ended
    requires table { ZeroTable (memory_of store.old.layout) table.old }
    requires callable { Callable (call_of store.old.layout call) }
    ensures left_after { left store.new.words.now store.new.marks.now (Ok result)
        ≡ left_by (searched (call_of store.old.layout call.entry)) }
    ensures same_store { SameStore store.old store.new }
    ensures same_table { table.new ≡ table.old }
{
    store.zero_rows(0);
    ended_of(search_rounds(store, table, call))
}

// The same, of a store that is lent as two slices. A function of its own, so that one call says what both hold at the end.
pub(crate) fn search_lent(
    words: &mut [u64],
    marks: &mut [u8],
    table: &mut [u32],
    layout: Layout,
    call: Call,
) -> Ended
    requires fit { Fit layout words.old marks.old }
    requires table { ZeroTable (memory_of layout) table.old }
    requires callable { Callable (call_of layout call) }
    ensures left_after { left words.new marks.new (Ok result) ≡ left_by (searched (call_of layout call.entry)) }
    ensures same_table { table.new ≡ table.old }
{
    let mut store = StoreMut {
        words,
        marks,
        layout,
    };
    search_store(&mut store, table, call)
}

// Searches a program for bugs, round after round (the Rust's search_for_bugs).
// The store has exactly one row a state, each of 38 + W + `log` words and 32 + W marks, W being the memory bytes over 8.
pub fn search_for_bugs(
    words: &mut [u64],
    marks: &mut [u8],
    options: RaritySimulationOptions,
    log: u64,
    program: Program,
    tape: &[u64],
) -> Result<Ended, Refusal>
    ensures result_after { left words.new marks.new result
        ≡ search_entry options log (program_seen program.entry) tape.now words.old marks.old }
    ensures demanded { Demanded options log (program_seen program.entry) tape.now words.old marks.old }
    ensures ages_told { AgesTold options log (program_seen program.entry) tape.now words.old marks.old }
{
    check_call(options, log, words.len(), marks.len(), program)?;
    let layout = Layout::new(
        options.amount_of_states as usize,
        options.memory_size / 8,
        log,
    );
    let call = Call {
        options,
        program,
        tape,
    };
    Ok(search_lent(words, marks, &mut [], layout, call))
}
