// The search that counts in a lent table. It comes to the same as the other, and takes less time.
ghost use Rattle.std.specs.Prelude.{◌≡◌};
ghost use Rattle.checks.specs.Tests.{checked_by};
ghost use Rattle.loader.specs.Lent.{program_seen};
ghost use Rattle.tables.specs.Lent.{table_left};
ghost use Rattle.search.specs.Entry.{left};
ghost use Rattle.search.specs.ByTable.{table_option_tests, table_call_tests, table_search_checked, table_search_entry, TableDemanded, TableAgesTold};

use crate::{check_options, search_lent};
use checks::refusal::Refusal;
use checks::segments::check_segments;
use loader::Program;
use options::RaritySimulationOptions;
use rounds::call::{Call, Ended};
use store::layout::Layout;
use tables::clear::clear_table;
use tables::lent::check_table;

// Numbers 1 to 5, then 32.
fn check_table_options(
    options: RaritySimulationOptions,
    log: u64,
    words: usize,
    marks: usize,
    table: usize,
) -> Result<(), Refusal>
    ensures { result ≡ checked_by (table_option_tests options log words marks table) }
{
    check_options(options, log, words, marks)?;
    check_table(options.memory_size / 8, table)
}

// Then 6 and 7.
fn check_table_call(
    options: RaritySimulationOptions,
    log: u64,
    words: usize,
    marks: usize,
    table: usize,
    program: Program,
) -> Result<(), Refusal>
    ensures { result ≡ checked_by (table_call_tests options log (program_seen program.entry) words marks table) }
{
    check_table_options(options, log, words, marks, table)?;
    check_segments(options.memory_size / 8, program)
}

// As `search_for_bugs`; scores are taken from the table, which has 256 × (W + 320) counters. It may hold anything, and is zero afterwards.
pub fn search_by_table(
    words: &mut [u64],
    marks: &mut [u8],
    table: &mut [u32],
    options: RaritySimulationOptions,
    log: u64,
    program: Program,
    tape: &[u64],
) -> Result<Ended, Refusal>
    ensures result_after { left words.new marks.new result
        ≡ table_search_entry options log (program_seen program.entry) tape.now words.old marks.old table.old }
    ensures table_after { table.new
        ≡ table_left (table_search_checked options log (program_seen program.entry) words.old marks.old table.old) table.old }
    ensures demanded { TableDemanded options log (program_seen program.entry) tape.now words.old marks.old table.old }
    ensures ages_told { TableAgesTold options log (program_seen program.entry) tape.now words.old marks.old table.old }
{
    check_table_call(options, log, words.len(), marks.len(), table.len(), program)?;
    clear_table(table);
    let layout = Layout::new(
        options.amount_of_states as usize,
        options.memory_size / 8,
        log,
    );
    let call = Call {
        options,
        program,
        tape,
    };
    Ok(search_lent(words, marks, table, layout, call))
}
