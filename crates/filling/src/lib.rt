// The store filled up to its number of states (the Rust's create_missing_executors). For the layers above.
#![tactic(auto)]

ghost use Rattle.std.specs.Prelude.{◌≡◌, ◌+◌, ◌-◌, ◌<◌, ◌≤◌, T, length, take, drop};
ghost use Rattle.checks.specs.Refusals.{is_copy_ratio};
ghost use Rattle.values.specs.Values.{register_count};
ghost use Rattle.rows.specs.Limits.{most_rows};
ghost use Rattle.rows.specs.Rows.{row, Shape, memory_in};
ghost use Rattle.store.specs.Store.{memory_of};
ghost use Rattle.store.specs.Lent.{rows_lent, SameStore};
ghost use Rattle.loader.specs.Lent.{program_seen, Loadable};
ghost use Rattle.rounds.specs.Copies.{to_copy, copies_of};
ghost use Rattle.rounds.specs.Rounds.{stored};
ghost use Rattle.rounds.specs.Handed.{call_of, Callable, start_of, Holding};
ghost use Rattle.filling.specs.Filling.{with_copies, created_anew, created_anew_at, with_new, filled_as};

use answers::finding::Finding;
use loader::{Program, load_program};
use rounds::call::{Call, Ended, Start};
use rows::row::BORN;
use store::layout::Layout;
use store::view::StoreMut;

// How many of the missing executors are copies: the product rounded to the nearest whole number, halves up.
// Twice the product is exact, so what is left to round is a half.
fn to_copy(missing: usize, ratio: f64) -> usize
    requires few { missing ≤ most_rows }
    requires copy_ratio { T (is_copy_ratio ratio) }
    ensures value { result ≡ to_copy missing ratio }
    ensures upper_bound { result ≤ missing }
{
    let product = (missing as f64) * ratio;
    let twice = std::num::truncating_f64_to_u64(product + product);
    ((twice + 1) / 2) as usize
}

// None are copied where none are kept.
fn count_copies(rows: usize, kept: usize, ratio: f64) -> usize
    requires few { rows ≤ most_rows }
    requires kept_le_rows { kept ≤ rows }
    requires copy_ratio { T (is_copy_ratio ratio) }
    ensures value { result ≡ copies_of rows kept ratio }
    ensures within { kept + result ≤ rows }
    ensures kept_nonzero { 0 < result → 0 < kept }
{
    if kept == 0 {
        0
    } else {
        to_copy(rows - kept, ratio)
    }
}

// The rows after the kept ones become copies of them; each takes one tape word modulo the number kept.
fn copy_executors(store: &mut StoreMut, call: Call, start: Start, count: usize)
    requires holding { Holding store.old start.kept }
    requires count_bound { start.kept + count ≤ store.old.layout.rows }
    requires kept_nonzero { 0 < count → 0 < start.kept }
    requires count_in_bounds { count ≤ length call.tape.now - start.used }
    ensures rows_after { rows_lent store.new
        ≡ stored store.old.layout (with_copies (start_of store.old start).kept (take count (drop start.used call.entry.tape.now))) }
    ensures same_store { SameStore store.old store.new }
{
    let tape = call.tape;
    let Start { kept, used } = start;
    for i in 0..count {
        let draw = tape[used + i];
        store.copy_row((draw % (kept as u64)) as usize, kept + i);
    }
}

// The program loaded into a row, which makes a new executor of a zero row, and the round in which that is.
fn load_anew(words: &mut [u64], marks: &mut [u8], program: Program, number: u32)
    requires shape { Shape words.old marks.old }
    requires some_memory { register_count < length marks.old }
    requires loadable { Loadable (memory_in marks.old) (program_seen program) }
    ensures { row words.new marks.new ≡ created_anew number (program_seen program.entry) (row words.old marks.old) }
{
    load_program(words, marks, program);
    words[BORN] = number as u64;
}

// The same of row r.
fn load_row(store: &mut StoreMut, program: Program, number: u32, r: usize)
    requires loadable { Loadable (memory_of store.old.layout) (program_seen program) }
    requires r_lt_rows { r < store.old.layout.rows }
    ensures rows_after { rows_lent store.new ≡ created_anew_at r number (program_seen program.entry) (rows_lent store.old) }
    ensures same_store { SameStore store.old store.new }
{
    let Layout { words, marks, .. } = store.layout;
    load_anew(
        &mut store.words[r * words..r * words + words],
        &mut store.marks[r * marks..r * marks + marks],
        program,
        number,
    );
}

// The zero rows, which are those from `from` on, become new executors.
fn new_executors(store: &mut StoreMut, program: Program, number: u32, from: usize)
    requires holding { Holding store.old from }
    requires loadable { Loadable (memory_of store.old.layout) (program_seen program) }
    ensures rows_after { rows_lent store.new
        ≡ with_new store.old.layout number (program_seen program.entry) (take from (rows_lent store.old)) (store.old.layout.rows - from) }
    ensures same_store { SameStore store.old store.new }
{
    for r in from..store.layout.rows {
        load_row(store, program, number, r);
    }
}

// The kept rows stay; copies of them follow, then new executors, made in round `number`. Answers how many tape words are used then;
// where fewer of them are left than copies to make, the search ends.
pub fn create_missing_executors(
    store: &mut StoreMut,
    call: Call,
    number: u32,
    start: Start,
) -> Result<usize, Ended>
    requires holding { Holding store.old start.kept }
    requires callable { Callable (call_of store.old.layout call) }
    ensures filled { filled_as result (rows_lent store.new) (call_of store.old.layout call.entry) number (start_of store.old start) }
    ensures same_store { SameStore store.old store.new }
{
    let rows = store.layout.rows;
    let count = count_copies(rows, start.kept, call.options.copy_init_ratio);
    if call.tape.len().saturating_sub(start.used) < count {
        return Err(Ended {
            finding: Finding::TapeShort,
            used: start.used,
        });
    }
    copy_executors(store, call, start, count);
    new_executors(store, call.program, number, start.kept + count);
    Ok(start.used + count)
}
