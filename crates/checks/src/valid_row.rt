// Number 9: whether a lent row is one that an executor can have.
ghost use Rattle.std.specs.Prelude.{◌≡◌, ◌+◌, ◌≤◌, eqb, length, drop};
ghost use Rattle.rows.specs.Lent.{seen};
ghost use Rattle.rows.specs.Valid.{slot_valid, slots_valid, all_zero, zero_register, sound_row, valid_row};

use rows::row::{HEADER, LIMIT, LOG_COUNT, RowRef};

// The largest limit from which a run of any 32-bit number of instructions can start.
const MOST_LIMIT: u64 = 0x8000_0000_0000_0000;

// What is wrong with a slot: 0 where nothing is.
fn slot_fault(word: u64, mark: u8) -> u64
    ensures { eqb result 0 ≡ slot_valid word mark }
{
    if mark == 0 { word } else { u64::from(mark ^ 1) }
}

// Nearly every row is right. So the two loops below look at all of it rather than leave at the first fault: that way the compiler takes
// several slots at a time.
fn slots_valid(slots: &[u64], marks: &[u8]) -> bool
    requires { length marks.now ≤ length slots.now }
    ensures { result ≡ slots_valid slots.now marks.now }
{
    slots
        .iter()
        .zip(marks)
        .fold(0, |fault, (word, mark)| fault | slot_fault(*word, *mark))
        == 0
}

fn all_zero(words: &[u64]) -> bool
    ensures { result ≡ all_zero words.now }
{
    words.iter().fold(0, |any, word| any | *word) == 0
}

fn zero_register(row: RowRef) -> bool
    ensures { result ≡ zero_register (seen row.entry) }
{
    row.marks[0] == 1 && row.words[HEADER] == 0
}

#[tactic(auto, unfolding(rows::specs::Valid::sound_row))]
fn sound_row(row: RowRef) -> bool
    ensures { result ≡ sound_row (seen row.entry) }
{
    let RowRef { words, marks } = row;
    let log = row.log_start();
    let room = (words.len() - log) as u64;
    let count = words[LOG_COUNT];
    slots_valid(&words[HEADER..], marks)
        && count <= room
        && all_zero(&words[log + count as usize..])
        && zero_register(row)
}

// The whole test.
#[tactic(auto, unfolding(rows::specs::Valid::valid_row))]
pub fn valid_row(row: RowRef) -> bool
    ensures { result ≡ valid_row (seen row.entry) }
{
    sound_row(row) && row.words[LIMIT] <= MOST_LIMIT
}
