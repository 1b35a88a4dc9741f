// From a sheet's bytes to what they ask for, or the number that refuses them.
ghost use Rattle.std.specs.Prelude.{◌≡◌, ◌+◌, ◌*◌, ◌^◌, ◌<◌, ◌≤◌, ltb, length};
ghost use Rattle.loader.specs.Loading.{segment};
ghost use Rattle.loader.specs.Lent.{segment_seen};
ghost use Rattle.sheet.specs.Sheets.{parsed, fields_parsed, part_past, above_limit, sheet_of, sheet_number, part_of};

use crate::fields::{FIELDS_LENGTH, Fields};
use crate::limits::Limits;
use loader::Segment;
use options::{RaritySimulationOptions, mean_numbered};
use std::num::f64_from_bits_with_nan;

// Bytes of the sheet that are loaded at an address.
#[derive(Clone, Copy)]
pub struct Part {
    pub address: u64,
    pub offset: usize,
    pub length: usize,
}

// What a sheet asks for.
#[derive(Clone, Copy)]
pub struct Sheet {
    pub options: RaritySimulationOptions,
    pub log: u64,
    pub code: Part,
    pub data: Part,
    pub tape_offset: usize,
    pub tape_words: usize,
}

impl Part {
    // These bytes, lent to be loaded.
    pub fn lent<'a>(&self, sheet: &'a [u8]) -> Segment<'a>
        requires { self.now.offset + self.now.length ≤ length sheet.now }
        ensures { segment_seen result ≡ segment self.now.address (part_of sheet.now self.now) }
    {
        Segment {
            address: self.address,
            bytes: &sheet[self.offset..self.offset + self.length],
        }
    }
}

// Why some bytes are no sheet that the program takes, each with its number.
#[derive(Clone, Copy)]
pub enum SheetError {
    SheetLength = 51,
    PartPastEnd = 52,
    UnknownMean = 53,
    AboveLimit = 54,
}

impl SheetError {
    // The number that hosts are told.
    pub fn number(self) -> u64
        ensures { result ≡ sheet_number self }
    {
        self as u64
    }
}

// Step, selection and rounds are 32-bit.
const MOST: u64 = u32::MAX as u64;

// Whether so many bytes from the offset on reach past n bytes. In 64 bits the sum, and the bytes of so many words, could wrap.
fn past(n: u64, offset: u64, bytes: u128) -> bool
    requires { bytes < 2 ^ 67 }
    ensures { result ≡ ltb n (offset + bytes) }
{
    (n as u128) < offset as u128 + bytes
}

impl Fields {
    fn part_past(self, n: u64) -> bool
        ensures { result ≡ part_past n self }
    {
        past(n, self.code_offset, self.code_length as u128)
            || past(n, self.data_offset, self.data_length as u128)
            || past(n, self.tape_offset, 8 * self.tape_words as u128)
    }

    fn above_limit(self, limits: Limits) -> bool
        ensures { result ≡ above_limit limits self }
    {
        MOST < self.step
            || MOST < self.selection
            || MOST < self.rounds
            || limits.states < self.states
            || limits.memory < self.memory
            || limits.log < self.log
    }

    fn sheet(self) -> Sheet
        requires step_bound { self.step < 2 ^ 32 }
        requires selection_bound { self.selection < 2 ^ 32 }
        requires rounds_bound { self.rounds < 2 ^ 32 }
        ensures { result ≡ sheet_of self }
    {
        Sheet {
            options: RaritySimulationOptions {
                memory_size: self.memory,
                amount_of_states: self.states,
                step_size: self.step as u32,
                selection: self.selection as u32,
                iterations: self.rounds as u32,
                copy_init_ratio: f64_from_bits_with_nan(self.ratio),
                mean: mean_numbered(self.mean),
            },
            log: self.log,
            code: Part {
                address: self.code_address,
                offset: self.code_offset as usize,
                length: self.code_length as usize,
            },
            data: Part {
                address: self.data_address,
                offset: self.data_offset as usize,
                length: self.data_length as usize,
            },
            tape_offset: self.tape_offset as usize,
            tape_words: self.tape_words as usize,
        }
    }

    // What those of a sheet of n bytes ask for.
    fn parse(self, limits: Limits, n: u64) -> Result<Sheet, SheetError>
        ensures { result ≡ fields_parsed limits n self }
    {
        if self.part_past(n) {
            return Err(SheetError::PartPastEnd);
        }
        if 1 < self.mean {
            return Err(SheetError::UnknownMean);
        }
        if self.above_limit(limits) {
            return Err(SheetError::AboveLimit);
        }
        Ok(self.sheet())
    }
}

// What some bytes are as a sheet, or why they are none that the program takes. For the crate report.
#[tactic(auto, unfolding(crate::specs::Sheets::parsed))]
pub fn parse(sheet: &[u8], limits: Limits) -> Result<Sheet, SheetError>
    ensures { result ≡ parsed limits sheet.now }
{
    let n = sheet.len() as u64;
    if sheet.len() < FIELDS_LENGTH || limits.bytes < n {
        return Err(SheetError::SheetLength);
    }
    Fields::read(sheet).with_defaults().parse(limits, n)
}
