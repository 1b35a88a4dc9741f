// One executor for hosts: its row is lent, and nothing is asked of the caller.
// Words are exactly 38 + W + L and marks 32 + W, W being the memory bytes over 8 and L the log words; what is
// refused changes nothing.
#![tactic(auto)]

ghost use Rattle.std.specs.Prelude.{◌≡◌, ◌/◌, ◌≤◌, length};
ghost use Rattle.rows.specs.Rows.{row};
ghost use Rattle.loader.specs.Lent.{program_seen};
ghost use Rattle.checks.specs.Tests.{checked_by};
ghost use Rattle.executor.specs.Entries.{creation_checked, created_row, BornAtZero, size_tests, run_checked, run_entry, answered, BornKept};
ghost use Rattle.executor.specs.Entries.{pc_of_end, run_answer};
ghost use Rattle.executor.specs.Resuming.{numbered, StopAndGoOn};

use answers::answer::Answer;
use answers::outcome::{Outcome, Progress};
use checks::refusal::{Refusal, are_lengths, is_log_size, is_memory_size, test};
use checks::segments::check_segments;
use checks::valid_row::valid_row;
use loader::Program;
use machine::run::Ran;
use rows::row::RowRef;

const ONE_ROW: u64 = 1;

#[tactic(auto, unfolding(checks::specs::Tests::checked_by))]
fn check_sizes(words: &[u64], marks: &[u8], memory: u64, log: u64) -> Result<(), Refusal>
    ensures { result ≡ checked_by (size_tests memory log (row words.now marks.now)) }
{
    test(is_memory_size(memory), Refusal::MemorySize)?;
    test(is_log_size(log), Refusal::LogSize)?;
    let lengths = are_lengths(
        ONE_ROW,
        memory / 8,
        log,
        words.len() as u64,
        marks.len() as u64,
    );
    test(lengths, Refusal::LentLengths)
}

// Makes a new executor of a program in a lent row.
#[tactic(auto, unfolding(crate::specs::Entries::created_row))]
pub fn new_executor(
    words: &mut [u64],
    marks: &mut [u8],
    memory: u64,
    log: u64,
    program: Program,
) -> Result<(), Refusal>
    ensures value { result ≡ creation_checked memory log (program_seen program.entry) (row words.old marks.old) }
    ensures row_after { row words.new marks.new ≡ created_row result (program_seen program.entry) (row words.old marks.old) }
    ensures born { BornAtZero memory log (program_seen program.entry) (row words.old marks.old) (row words.new marks.new) }
{
    check_sizes(words, marks, memory, log)?;
    check_segments(memory / 8, program)?;
    loader::new_executor(words, marks, program);
    Ok(())
}

// The tests of a run of a lent row.
pub fn check_run(words: &[u64], marks: &[u8], memory: u64, log: u64) -> Result<(), Refusal>
    ensures { result ≡ run_checked memory log (row words.now marks.now) }
{
    check_sizes(words, marks, memory, log)?;
    test(valid_row(RowRef { words, marks }), Refusal::InvalidRow)
}

// Runs a lent row for at most `step` instructions more, on a lent tape from its front. A run that stops there (22) is one with the next, on the row
// that it left and the rest of the tape.
#[tactic(auto, unfolding(crate::specs::Entries::run_entry, crate::specs::Entries::run_answered))]
pub fn run(
    words: &mut [u64],
    marks: &mut [u8],
    memory: u64,
    log: u64,
    step: u32,
    tape: &[u64],
) -> Result<Ran, Refusal>
    ensures row_and_answer { answered words.new marks.new result
        ≡ run_entry memory log step tape.now (row words.old marks.old) }
    ensures goes_on { StopAndGoOn memory log step tape.now (row words.old marks.old) (numbered (answered words.new marks.new result)) }
    ensures used_in_bounds { (run_answer result).used ≤ length tape.now }
    ensures born { BornKept (row words.old marks.old) (row words.new marks.new) }
{
    check_run(words, marks, memory, log)?;
    Ok(machine::run::run(words, marks, step, tape, 0))
}

fn pc_of_end(progress: Progress, pc: u64) -> u64
    ensures { result ≡ pc_of_end progress pc }
{
    match progress {
        Progress::Running => pc,
        Progress::Ended(outcome) => match outcome {
            Outcome::Exited => 0,
            Outcome::Found(_) => pc,
            Outcome::Failed(_) => pc,
        },
    }
}

fn answer_of(ran: Ran) -> Answer
    ensures { result ≡ run_answer (Ok ran) }
{
    let progress = ran.progress;
    Answer {
        number: progress.number(),
        row: 0,
        pc: pc_of_end(progress, ran.pc),
        value: progress.value(),
        used: ran.used as u64,
    }
}

// The answer in numbers, of a run that is refused or made.
pub fn run_answer(answer: Result<Ran, Refusal>) -> Answer
    ensures { result ≡ run_answer answer }
{
    match answer {
        Ok(ran) => answer_of(ran),
        Err(refusal) => Answer::refused(refusal.number()),
    }
}
