// One instruction of an executor.
ghost use Rattle.std.specs.Prelude.{◌≡◌, ◌+◌, ◌<◌, ◌^◌, Some};
ghost use Rattle.riscu.specs.Registers.{Registers};
ghost use Rattle.rows.specs.Rows.{depth_of};
ghost use Rattle.rows.specs.Lent.{seen, lent, SameSlices};
ghost use Rattle.calls.specs.Calls.{step_to, system};
ghost use Rattle.machine.specs.Steps.{half_at, fetched, followed, executed, deeper};
ghost use Rattle.machine.specs.Handing.{handed_on, stepped_by};

use answers::error::{ExecutorError, NotSupportedReason};
use answers::outcome::Outcome;
use calls::step::Step;
use calls::system::{complete_write, execute_ecall};
use execution::{Next, execute};
use known::Known;
use riscu::instruction::Instruction;
use rows::row::{DEPTH, PC, RowMut, RowRef};
use values::Value;

const HALF: u64 = 0x1_0000_0000;

#[tactic(auto, unfolding(crate::specs::Steps::half_at))]
fn half_at(pc: u64, value: Value) -> Result<u32, ExecutorError>
    ensures { result ≡ half_at pc value }
{
    let Value::Concrete(x) = value else {
        return Err(ExecutorError::NotSupported(NotSupportedReason::FetchUninitializedWord));
    };
    if pc % 8 == 0 {
        Ok((x % HALF) as u32)
    } else {
        Ok((x / HALF) as u32)
    }
}

// The word at pc, or why there is none.
#[tactic(auto, unfolding(crate::specs::Steps::fetched))]
fn fetch(row: RowRef) -> Result<u32, ExecutorError>
    ensures { result ≡ fetched (seen row.entry) }
{
    let pc = row.words[PC];
    let m = (pc / 8) as usize;
    if m < row.memory_words() {
        half_at(pc, row.read_memory(m))
    } else {
        Err(ExecutorError::PcOutOfRange)
    }
}

// Fetches the next instruction, which counts as executed.
fn fetch_next(row: &mut RowMut) -> Result<u32, ExecutorError>
    requires { depth_of (lent row.old) + 1 < 2 ^ 64 }
    ensures value { result ≡ fetched (deeper (lent row.old)) }
    ensures row_after { lent row.new ≡ deeper (lent row.old) }
    ensures same_slices { SameSlices row.old row.new }
{
    row.words[DEPTH] = row.words[DEPTH] + 1;
    fetch(row.view())
}

// A system call; a write call is handed out, or completed at once: its bytes go nowhere then. Each arm says what it comes to: with
// one arm for the steps that stay, the compiler asks after each instruction whether to go on, and a run is slower by a fifth.
#[tactic(auto, unfolding(crate::specs::Handing::handed))]
fn call(row: &mut RowMut, tape: &[u64], used: &mut usize, handing: bool) -> Step
    ensures row_after { step_to result used.new (lent row.new) ≡ handed_on handing (system tape.now used.old (lent row.old)) }
    ensures same_slices { SameSlices row.old row.new }
{
    match execute_ecall(row, tape, used) {
        Step::Running => Step::Running,
        Step::Write { buffer, size } => {
            if handing {
                return Step::Write { buffer, size };
            }
            complete_write(row, size);
            Step::Running
        }
        Step::Ended(outcome) => Step::Ended(outcome),
    }
}

#[tactic(auto, unfolding(crate::specs::Steps::followed, crate::specs::Handing::handed))]
fn follow(row: &mut RowMut, next: Next, tape: &[u64], used: &mut usize, handing: bool) -> Step
    ensures row_after { step_to result used.new (lent row.new)
        ≡ handed_on handing (followed next tape.now used.old (lent row.old)) }
    ensures same_slices { SameSlices row.old row.new }
{
    match next {
        Next::Instruction => Step::Running,
        Next::Call => call(row, tape, used, handing),
        Next::End(outcome) => Step::Ended(outcome),
    }
}

#[tactic(auto, unfolding(crate::specs::Steps::executed))]
fn advance(
    row: &mut RowMut,
    instruction: &Instruction,
    tape: &[u64],
    used: &mut usize,
    handing: bool,
) -> Step
    requires { Registers instruction.now }
    ensures row_after { step_to result used.new (lent row.new)
        ≡ handed_on handing (executed (Some instruction.now) tape.now used.old (lent row.old)) }
    ensures same_slices { SameSlices row.old row.new }
{
    let next = execute(row, instruction);
    follow(row, next, tape, used, handing)
}

// The next instruction, fetched, decoded and carried out.
pub(crate) fn take_step(
    row: &mut RowMut,
    tape: &[u64],
    used: &mut usize,
    known: &mut Known,
    handing: bool,
) -> Step
    requires { depth_of (lent row.old) + 1 < 2 ^ 64 }
    ensures row_after { step_to result used.new (lent row.new) ≡ stepped_by handing tape.now used.old (lent row.old) }
    ensures same_slices { SameSlices row.old row.new }
{
    let pc = row.words[PC];
    let word = match fetch_next(row) {
        Ok(word) => word,
        Err(error) => return Step::Ended(Outcome::Failed(error)),
    };
    match known.decode(pc, word) {
        Some(instruction) => advance(row, instruction, tape, used, handing),
        None => Step::Ended(Outcome::Failed(ExecutorError::InvalidInstructionEncoding)),
    }
}
