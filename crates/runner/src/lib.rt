// The counter runner: a label program on a keyed order, without the search, for hosts, in one call or in several. What the program writes goes to a
// lent output.
// Nothing is asked of the caller; words are exactly 38 + W + L and marks 32 + W, as for an executor, and what is refused changes nothing.
#![tactic(auto)]

ghost use Rattle.std.specs.Prelude.{◌≡◌, ◌+◌, ◌*◌, ◌≤◌, ◌<◌, ◌^◌, length};
ghost use Rattle.rows.specs.Rows.{row, Shape, limit_of, memory_words};
ghost use Rattle.rows.specs.Lent.{lent, SameSlices};
ghost use Rattle.loader.specs.Lent.{program_seen};
ghost use Rattle.calls.specs.Calls.{completed};
ghost use Rattle.machine.specs.Runs.{answer_of};
ghost use Rattle.machine.specs.Writes.{bytes_from};
ghost use Rattle.executor.specs.Entries.{BornAtZero, BornKept, answered, run_answer, run_entry};
ghost use Rattle.writing.specs.Writing.{Wrote};
ghost use Rattle.runner.specs.Serving.{served_of};
ghost use Rattle.runner.specs.Entry.{printed, refused, left, left_by, run_program, go_on, one_run, OneRun};
ghost use Rattle.runner.specs.Resuming.{numbered_as, ProgramGoesOn, RowGoesOn};

use answers::error::ExecutorError;
use answers::outcome::{Outcome, Progress};
use calls::step::Step;
use checks::refusal::Refusal;
use known::Known;
use loader::Program;
use machine::run::{Ran, run_to_write};
use machine::write::write_to;
use rows::row::RowMut;

// What the run of a label program answers, and how many bytes of the output it wrote.
#[derive(Clone, Copy)]
pub struct Printed {
    pub answer: Result<Ran, Refusal>,
    pub written: usize,
}

fn ended(progress: Progress, pc: u64, used: usize, written: usize) -> Printed
    ensures { result ≡ printed (answer_of progress pc used) written }
{
    Printed {
        answer: Ok(Ran { progress, pc, used }),
        written,
    }
}

fn refused(refusal: Refusal) -> Printed
    ensures { result ≡ refused refusal }
{
    Printed {
        answer: Err(refusal),
        written: 0,
    }
}

// Puts the bytes of a write call behind those that were written before, and completes it; answers where they end.
fn print(row: &mut RowMut, buffer: u64, size: usize, output: &mut [u8], at: usize) -> usize
    requires size_bound { buffer + size ≤ 8 * memory_words (lent row.old) }
    requires size_in_bounds { at + size ≤ length output.old }
    ensures row_after { lent row.new ≡ completed size (lent row.old) }
    ensures wrote { Wrote output.old at (bytes_from size buffer (lent row.old)) result output.new }
    ensures same_slices { SameSlices row.old row.new }
{
    let end = at + size;
    write_to(row, buffer, &mut output[at..end]);
    end
}

// A run of a row, each of its write calls put out as it comes; one that needs more output than is left ends it.
fn serve(row: &mut RowMut, step: u32, input: &[u64], output: &mut [u8]) -> Printed
    requires step_bound { limit_of (lent row.old) + step < 2 ^ 64 }
    ensures result_after { left row.new.words.now row.new.marks.now output.new result
        ≡ left_by (served_of step input.now (length output.old) 0 (lent row.old)) output.old }
    ensures same_slices { SameSlices row.old row.new }
{
    let mut known = Known::new();
    let mut more = step;
    let mut used = 0;
    let mut at = 0;
    loop {
        let paused = run_to_write(row, more, input, used, &mut known);
        let pc = paused.pc;
        used = paused.used;
        more = 0;
        match paused.step {
            Step::Running => {
                return ended(Progress::Running, pc, used, at);
            }
            Step::Write { buffer, size } => {
                if size > (output.len() - at) as u64 {
                    let full = Outcome::Failed(ExecutorError::OutputFull);
                    return ended(Progress::Ended(full), pc, used, at);
                }
                at = print(row, buffer, size as usize, output, at);
            }
            Step::Ended(outcome) => {
                return ended(Progress::Ended(outcome), pc, used, at);
            }
        }
    }
}

// The same of a row that is lent as two slices.
fn serve_slices(
    words: &mut [u64],
    marks: &mut [u8],
    step: u32,
    input: &[u64],
    output: &mut [u8],
) -> Printed
    requires shape { Shape words.old marks.old }
    requires step_bound { limit_of (row words.old marks.old) + step < 2 ^ 64 }
    ensures { left words.new marks.new output.new result
        ≡ left_by (served_of step input.now (length output.old) 0 (row words.old marks.old)) output.old }
{
    let mut row = RowMut { words, marks };
    serve(&mut row, step, input, output)
}

// Loads a label program into a lent row and runs it for at most `step` instructions on the keyed order: one input word to each draw.
// The output begins with the bytes of the completed write calls, in order; its other bytes are untouched.
pub fn run_program(
    words: &mut [u64],
    marks: &mut [u8],
    memory: u64,
    log: u64,
    step: u32,
    program: Program,
    input: &[u64],
    output: &mut [u8],
) -> Printed
    ensures result_after { left words.new marks.new output.new result
        ≡ run_program memory log step (program_seen program.entry) input.now (row words.old marks.old) output.old }
    ensures one_run { OneRun (one_run memory log step (program_seen program.entry) input.now (row words.old marks.old))
        (answered words.new marks.new result.answer) }
    ensures goes_on { ProgramGoesOn memory log step (program_seen program.entry) input.now (row words.old marks.old) output.old
        (numbered_as words.new marks.new output.new (run_answer result.answer) result.written) }
    ensures born { BornAtZero memory log (program_seen program.entry) (row words.old marks.old) (row words.new marks.new) }
    ensures used_in_bounds { (run_answer result.answer).used ≤ length input.now }
    ensures written_in_bounds { result.written ≤ length output.old }
{
    match executor::new_executor(words, marks, memory, log, program) {
        Ok(()) => serve_slices(words, marks, step, input, output),
        Err(refusal) => refused(refusal),
    }
}

// Goes on with a lent row, which a call that answered 22 has left, for at most `step` instructions more. Its input is what that call left of the
// keyed order, and its output what it left of the output.
pub fn go_on(
    words: &mut [u64],
    marks: &mut [u8],
    memory: u64,
    log: u64,
    step: u32,
    input: &[u64],
    output: &mut [u8],
) -> Printed
    ensures result_after { left words.new marks.new output.new result
        ≡ go_on memory log step input.now (row words.old marks.old) output.old }
    ensures one_run { OneRun (run_entry memory log step input.now (row words.old marks.old))
        (answered words.new marks.new result.answer) }
    ensures goes_on { RowGoesOn memory log step input.now (row words.old marks.old) output.old
        (numbered_as words.new marks.new output.new (run_answer result.answer) result.written) }
    ensures born { BornKept (row words.old marks.old) (row words.new marks.new) }
    ensures used_in_bounds { (run_answer result.answer).used ≤ length input.now }
    ensures written_in_bounds { result.written ≤ length output.old }
{
    match executor::check_run(words, marks, memory, log) {
        Ok(()) => serve_slices(words, marks, step, input, output),
        Err(refusal) => refused(refusal),
    }
}
