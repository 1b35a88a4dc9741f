// The sixteen fields of a sheet.
ghost use Rattle.std.specs.Prelude.{◌≡◌, ◌≤◌, length};
ghost use Rattle.sheet.specs.Sheets.{fields_of, or_default, with_defaults};

use loader::word_at;
use options::{
    AMOUNT_OF_STATES, COPY_RATIO_BITS, ITERATIONS, MEAN, MEMORY_SIZE, SELECTION, STEP_SIZE,
    mean_number,
};

// What a sheet begins with: its numbers in this order, eight bytes each.
#[derive(Clone, Copy)]
pub struct Fields {
    pub states: u64,
    pub step: u64,
    pub selection: u64,
    pub rounds: u64,
    pub ratio: u64,
    pub mean: u64,
    pub memory: u64,
    pub log: u64,
    pub code_address: u64,
    pub code_offset: u64,
    pub code_length: u64,
    pub data_address: u64,
    pub data_offset: u64,
    pub data_length: u64,
    pub tape_offset: u64,
    pub tape_words: u64,
}

pub(crate) const FIELDS_LENGTH: usize = 128;

// All ones ask for the default.
const DEFAULT: u64 = u64::MAX;

#[tactic(auto, unfolding(crate::specs::Sheets::or_default))]
fn or_default(x: u64, default: u64) -> u64
    ensures { result ≡ or_default x default }
{
    if x == DEFAULT { default } else { x }
}

impl Fields {
    // As they stand in a sheet.
    pub(crate) fn read(sheet: &[u8]) -> Fields
        requires { 128 ≤ length sheet.now }
        ensures { result ≡ fields_of sheet.now }
    {
        Fields {
            states: word_at(sheet, 0),
            step: word_at(sheet, 8),
            selection: word_at(sheet, 16),
            rounds: word_at(sheet, 24),
            ratio: word_at(sheet, 32),
            mean: word_at(sheet, 40),
            memory: word_at(sheet, 48),
            log: word_at(sheet, 56),
            code_address: word_at(sheet, 64),
            code_offset: word_at(sheet, 72),
            code_length: word_at(sheet, 80),
            data_address: word_at(sheet, 88),
            data_offset: word_at(sheet, 96),
            data_length: word_at(sheet, 104),
            tape_offset: word_at(sheet, 112),
            tape_words: word_at(sheet, 120),
        }
    }

    // With the defaults put in.
    pub(crate) fn with_defaults(self) -> Fields
        ensures { result ≡ with_defaults self }
    {
        Fields {
            states: or_default(self.states, AMOUNT_OF_STATES),
            step: or_default(self.step, STEP_SIZE as u64),
            selection: or_default(self.selection, SELECTION as u64),
            rounds: or_default(self.rounds, ITERATIONS as u64),
            ratio: or_default(self.ratio, COPY_RATIO_BITS),
            mean: or_default(self.mean, mean_number(MEAN)),
            memory: or_default(self.memory, MEMORY_SIZE),
            ..self
        }
    }
}
