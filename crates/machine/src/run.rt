// A run of an executor up to a limit of instructions.
ghost use Rattle.std.specs.Prelude.{◌≡◌, ◌+◌, ◌-◌, ◌<◌, ◌^◌};
ghost use Rattle.rows.specs.Rows.{row, Shape, depth_of, limit_of, memory_words};
ghost use Rattle.rows.specs.Lent.{lent, SameSlices};
ghost use Rattle.machine.specs.Runs.{run_of, finished_as};
ghost use Rattle.machine.specs.Pauses.{halted_as, paused_of};
ghost use Rattle.machine.specs.Handing.{halted_for, progress_of};
ghost use Rattle.machine.specs.HandedOut.{HandedOut};

use crate::step::take_step;
use answers::outcome::Progress;
use calls::step::Step;
use known::Known;
use rows::row::{DEPTH, LIMIT, PC, RowMut};

// What a run answers: still running (number 22) or how it ended; the pc before the last instruction, or the
// row's if it still runs; and how many tape words are used.
#[derive(Clone, Copy)]
pub struct Ran {
    pub progress: Progress,
    pub pc: u64,
    pub used: usize,
}

// The same of a run that halts at a write call: the step says at what it halted.
#[derive(Clone, Copy)]
pub struct Paused {
    pub step: Step,
    pub pc: u64,
    pub used: usize,
}

// The loop of a run.
#[inline(always)]
fn run_loop(
    row: &mut RowMut,
    limit: u64,
    tape: &[u64],
    used: usize,
    known: &mut Known,
    handing: bool,
) -> Paused
    ensures result_after { halted_as row.new.words.now row.new.marks.now result
        ≡ halted_for handing (limit - depth_of (lent row.old)) tape.now used (lent row.old) }
    ensures same_slices { SameSlices row.old row.new }
{
    let mut used = used;
    while row.words[DEPTH] < limit {
        let pc = row.words[PC];
        let step = take_step(row, tape, &mut used, known, handing);
        let Step::Running = step else {
            return Paused { step, pc, used };
        };
    }
    Paused {
        step: Step::Running,
        pc: row.words[PC],
        used,
    }
}

fn progress_of(step: Step) -> Progress
    ensures { result ≡ progress_of step }
{
    match step {
        Step::Running | Step::Write { .. } => Progress::Running,
        Step::Ended(outcome) => Progress::Ended(outcome),
    }
}

// Runs until depth is at the limit; write calls are handed out, or completed: their bytes go nowhere then. There is one loop
// for both, since a second one, or a second caller of an instruction, makes either of them slower by half; and the view of the
// row is made here, beside the loop, since a run reads one behind a reference anew at each instruction, and is slower by a sixth.
fn run_to(
    words: &mut [u64],
    marks: &mut [u8],
    limit: u64,
    tape: &[u64],
    used: usize,
    known: &mut Known,
    handing: bool,
) -> Paused
    requires { Shape words.old marks.old }
    ensures { halted_as words.new marks.new result
        ≡ halted_for handing (limit - depth_of (row words.old marks.old)) tape.now used (row words.old marks.old) }
{
    let mut row = RowMut { words, marks };
    run_loop(&mut row, limit, tape, used, known, handing)
}

// Runs at most `step` instructions more.
pub fn run(words: &mut [u64], marks: &mut [u8], step: u32, tape: &[u64], used: usize) -> Ran
    requires shape { Shape words.old marks.old }
    requires step_bound { limit_of (row words.old marks.old) + step < 2 ^ 64 }
    ensures { finished_as words.new marks.new result
        ≡ run_of step tape.now used (row words.old marks.old) }
{
    let limit = words[LIMIT] + step as u64;
    words[LIMIT] = limit;
    let mut known = Known::new();
    let paused = run_to(words, marks, limit, tape, used, &mut known, false);
    Ran {
        progress: progress_of(paused.step),
        pc: paused.pc,
        used: paused.used,
    }
}

// Runs at most `step` instructions more, up to a write call, which the caller completes by `write_to`, or not at all. What the run decodes
// it keeps in a table of the caller's, for the next call.
pub fn run_to_write(
    row: &mut RowMut,
    step: u32,
    tape: &[u64],
    used: usize,
    known: &mut Known,
) -> Paused
    requires step_bound { limit_of (lent row.old) + step < 2 ^ 64 }
    ensures result_after { halted_as row.new.words.now row.new.marks.now result
        ≡ paused_of step tape.now used (lent row.old) }
    ensures handed_out { HandedOut (memory_words (lent row.old)) result.step }
    ensures same_slices { SameSlices row.old row.new }
{
    let limit = row.words[LIMIT] + step as u64;
    row.words[LIMIT] = limit;
    run_to(row.words, row.marks, limit, tape, used, known, true)
}
