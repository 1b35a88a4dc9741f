// The program of a line, and what it reads: columns that say how long its parts are, and the words of these parts.
ghost use Rattle.std.specs.Prelude.{◌≡◌, ◌+◌, ◌≤◌, ◌++◌, length, take, drop, IfSome};
ghost use Rattle.loader.specs.Loading.{image};
ghost use Rattle.loader.specs.Lent.{program_seen};
ghost use Rattle.replay_lists.specs.Columns.{number_at, words_for, words_end, bytes_at};

use crate::columns::{MOST_BYTES, bytes_at, length_within, number_at, words_of};

// Columns, counted from the first of a program, where the address of its code stands.
const CODE_LENGTH: usize = 1;

const DATA_ADDRESS: usize = 2;

const DATA_LENGTH: usize = 3;

const TAPE_WORDS: usize = 4;

// Bytes that a line has as words, in room for the most that there may be.
#[derive(Clone, Copy)]
pub struct Bytes {
    pub room: [u8; MOST_BYTES],
    pub length: usize,
    ghost within: { length ≤ 512 },
}

#[derive(Clone, Copy)]
pub struct Program<'a> {
    pub code_address: u64,
    pub code: Bytes,
    pub data_address: u64,
    pub data: Bytes,
    pub tape: &'a [u64],
    // the numbers that follow the tape
    pub rest: &'a [u64],
}

impl Bytes {
    // So many bytes, in the words from `start` on.
    fn at(numbers: &[u64], start: usize, length: usize) -> Bytes
        requires { (start ≤ 1000) × (length ≤ 512) }
        ensures room { result.room ≡ bytes_at 512 numbers.now start }
        ensures length { result.length ≡ length }
    {
        Bytes {
            room: bytes_at(numbers, start),
            length,
        }
    }

    pub fn as_slice(&self) -> &[u8]
        ensures { result.now ≡ take self.now.length self.now.room }
    {
        &self.room[..self.length]
    }
}

impl<'a> Program<'a> {
    // The program whose columns begin at `at`, and whose words begin at `start`, with so many numbers after its tape. None if a length
    // is above the most, or the line does not have just these numbers; of such a line no bytes are read.
    pub fn at(numbers: &'a [u64], at: usize, start: usize, more: usize) -> Option<Program<'a>>
        requires { (at ≤ 100) × (start ≤ 100) }
        ensures code_room { IfSome result (λ p. p.code.room ≡ bytes_at 512 numbers.now start) }
        ensures code_length { IfSome result (λ p. p.code.length ≡ number_at numbers.now (at + 1)) }
        ensures code_address { IfSome result (λ p. p.code_address ≡ number_at numbers.now at) }
        ensures data_length { IfSome result (λ p. p.«data».length ≡ number_at numbers.now (at + 3)) }
        ensures data_room { IfSome result (λ p. p.«data».room ≡ bytes_at 512 numbers.now (start + words_for p.code.length)) }
        ensures data_address { IfSome result (λ p. p.data_address ≡ number_at numbers.now (at + 2)) }
        ensures tape { IfSome result (λ p. p.tape.now ++ p.rest.now ≡ drop (words_end start p.code.length p.«data».length) numbers.now) }
        ensures tape_words { IfSome result (λ p. length p.tape.now ≡ number_at numbers.now (at + 4)) }
        ensures rest_words { IfSome result (λ p. length p.rest.now ≡ more) }
    {
        let code_length = length_within(numbers, at + CODE_LENGTH, MOST_BYTES)?;
        let data_length = length_within(numbers, at + DATA_LENGTH, MOST_BYTES)?;
        let data_start = start + words_of(code_length);
        let (_, tape) = numbers.split_at_checked(data_start + words_of(data_length))?;
        let (tape, rest) = tape.split_at_checked(number_at(numbers, at + TAPE_WORDS) as usize)?;
        if rest.len() != more {
            return None;
        }
        Some(Program {
            code_address: number_at(numbers, at),
            code: Bytes::at(numbers, start, code_length),
            data_address: number_at(numbers, at + DATA_ADDRESS),
            data: Bytes::at(numbers, data_start, data_length),
            tape,
            rest,
        })
    }

    // Code and data, lent to be loaded.
    pub fn lent(&self) -> loader::Program<'_>
        ensures { program_seen result ≡ image
            self.now.code_address (take self.now.code.length self.now.code.room)
            self.now.data_address (take self.now.«data».length self.now.«data».room) }
    {
        loader::Program::new(
            self.code_address,
            self.code.as_slice(),
            self.data_address,
            self.data.as_slice(),
        )
    }
}
