// Input for a row: tape words into its memory and its log (the loop of the Rust's execute_read). For the layers above.
#![tactic(auto)]

ghost use Rattle.std.specs.Prelude.{◌≡◌, ◌+◌, ◌*◌, ◌/◌, ◌<◌, ◌≤◌, ◌^◌, OnOk, length};
ghost use Rattle.rows.specs.Rows.{memory_words, log_start, room_from, log_room, log_count};
ghost use Rattle.rows.specs.Lent.{seen, lent, SameSlices};
ghost use Rattle.reading.specs.Reading.{reached, drawn as drawn_of, logged_at, recorded, full_word, full_words, tail as tail_in, rest as rest_of, bytes as bytes_of};

use answers::error::ExecutorError;
use rows::row::{LOG_COUNT, RowMut, RowRef};
use values::Value;

// The next tape word, or why there is none; the row's log starts at word `log`.
#[tactic(auto, unfolding(crate::specs::Reading::drawn))]
fn draw(row: RowRef, log: usize, tape: &[u64], used: usize) -> Result<u64, ExecutorError>
    requires { log ≤ length row.words.now }
    ensures value { result ≡ drawn_of log tape.now used (seen row.entry) }
    ensures room { OnOk result (log_count (seen row.entry) < room_from log (seen row.entry)) }
    ensures in_tape { OnOk result (used < length tape.now) }
{
    if (row.words.len() - log) as u64 <= row.words[LOG_COUNT] {
        return Err(ExecutorError::LogFull);
    }
    if tape.len() <= used {
        return Err(ExecutorError::TapeEmpty);
    }
    Ok(tape[used])
}

// Puts a word behind those that are logged.
fn log_word(row: &mut RowMut, log: usize, x: u64)
    requires { log_count (lent row.old) < room_from log (lent row.old) }
    ensures row_after { lent row.new ≡ logged_at log x (lent row.old) }
    ensures same_slices { SameSlices row.old row.new }
{
    let count = row.words[LOG_COUNT] as usize;
    row.words[log + count] = x;
    row.words[LOG_COUNT] = (count + 1) as u64;
}

// Logs a word, and stores one in memory word m.
#[tactic(auto, unfolding(crate::specs::Reading::recorded))]
fn record(row: &mut RowMut, m: usize, logged: u64, stored: u64)
    requires m_bound { m < memory_words (lent row.old) }
    requires room { log_count (lent row.old) < log_room (lent row.old) }
    ensures row_after { lent row.new ≡ recorded m logged stored (lent row.old) }
    ensures same_slices { SameSlices row.old row.new }
{
    let log = row.view().log_start();
    log_word(row, log, logged);
    row.write_memory(m, Value::Concrete(stored));
}

#[tactic(auto, unfolding(crate::specs::Reading::full_word))]
fn read_word(
    row: &mut RowMut,
    tape: &[u64],
    m: usize,
    used: &mut usize,
) -> Result<(), ExecutorError>
    requires { m < memory_words (lent row.old) }
    ensures row_after { reached (lent row.new) used.new result
        ≡ full_word (drawn_of (log_start (lent row.old)) tape.now used.old (lent row.old)) m used.old (lent row.old) }
    ensures same_slices { SameSlices row.old row.new }
{
    let x = draw(row.view(), row.view().log_start(), tape, *used)?;
    record(row, m, x, x);
    *used += 1;
    Ok(())
}

fn read_words(
    row: &mut RowMut,
    tape: &[u64],
    n: usize,
    m: usize,
    used: &mut usize,
) -> Result<(), ExecutorError>
    requires { m + n ≤ memory_words (lent row.old) }
    ensures row_after { reached (lent row.new) used.new result ≡ full_words n tape.now m used.old (lent row.old) }
    ensures same_slices { SameSlices row.old row.new }
{
    for k in 0..n {
        read_word(row, tape, m + k, used)?;
    }
    Ok(())
}

// 2^8k for a tail of k bytes.
#[tactic(auto, using(crate::proofs::Tails::unit))]
fn unit_of(k: u64) -> u64
    requires { k < 8 }
    ensures { result ≡ 2 ^ (8 * k) }
{
    1 << (8 * k)
}

// A tail of k bytes into memory word m, which holds `word`.
#[tactic(auto, unfolding(crate::specs::Reading::tail, crate::specs::Reading::tail_of), using(crate::proofs::Tails::tail_fits))]
fn read_tail(
    row: &mut RowMut,
    tape: &[u64],
    word: Value,
    k: u64,
    m: usize,
    used: &mut usize,
) -> Result<(), ExecutorError>
    requires m_bound { m < memory_words (lent row.old) }
    requires k_nonzero { 0 < k }
    requires k_bound { k < 8 }
    ensures row_after { reached (lent row.new) used.new result
        ≡ tail_in word tape.now (2 ^ (8 * k)) m used.old (lent row.old) }
    ensures same_slices { SameSlices row.old row.new }
{
    let Value::Concrete(before) = word else {
        return Ok(());
    };
    let x = draw(row.view(), row.view().log_start(), tape, *used)?;
    let unit = unit_of(k);
    let low = x % unit;
    record(row, m, low, before / unit * unit + low);
    *used += 1;
    Ok(())
}

#[tactic(auto, unfolding(crate::specs::Reading::rest))]
fn read_rest(
    row: &mut RowMut,
    tape: &[u64],
    size: u64,
    m: usize,
    used: &mut usize,
) -> Result<(), ExecutorError>
    requires { m + (size + 7) / 8 ≤ memory_words (lent row.old) }
    ensures row_after { reached (lent row.new) used.new result ≡ rest_of size tape.now m used.old (lent row.old) }
    ensures same_slices { SameSlices row.old row.new }
{
    let k = size % 8;
    if k == 0 {
        return Ok(());
    }
    let last = m + (size / 8) as usize;
    let word = row.view().read_memory(last);
    read_tail(row, tape, word, k, last, used)
}

// size bytes into the memory words from m on.
#[tactic(auto, unfolding(crate::specs::Reading::bytes, crate::specs::Reading::onwards))]
pub fn read_bytes(
    row: &mut RowMut,
    tape: &[u64],
    size: u64,
    m: usize,
    used: &mut usize,
) -> Result<(), ExecutorError>
    requires { m + (size + 7) / 8 ≤ memory_words (lent row.old) }
    ensures row_after { reached (lent row.new) used.new result ≡ bytes_of size tape.now m used.old (lent row.old) }
    ensures same_slices { SameSlices row.old row.new }
{
    read_words(row, tape, (size / 8) as usize, m, used)?;
    read_rest(row, tape, size, m, used)
}
