// The calls themselves, and the one that a7 names.
ghost use Rattle.std.specs.Prelude.{◌≡◌, ◌+◌, ◌≤◌};
ghost use Rattle.rows.specs.Rows.{memory_words};
ghost use Rattle.rows.specs.Lent.{seen, lent, SameSlices};
ghost use Rattle.calls.specs.Calls.{progress_of, brk as brk_of, brk_progress, reached, read as read_of, all_concrete, write as write_of, exit as exit_of};
ghost use Rattle.calls.specs.Calls.{step_to, call_of, id_of, system as system_of, completed};

use crate::number::{SyscallId, syscall_id};
use crate::step::{Step, step_of};
use crate::transfer::{A0, A7, Reasons, transfer_of, unsupported};
use answers::bug::{Bug, UninitializedMemoryAccessReason};
use answers::error::NotSupportedReason;
use answers::outcome::Outcome;
use reading::read_bytes;
use riscu::instruction::INSTRUCTION_SIZE;
use rows::row::{BREAK, PC, RowMut, RowRef};
use values::Value;

const STDIN: u64 = 0;

const STDOUT: u64 = 1;

#[tactic(auto, unfolding(crate::specs::Calls::brk, crate::specs::Calls::brk_progress))]
fn execute_brk(row: &mut RowMut, wanted: Value, memory: u64) -> Result<(), Outcome>
    ensures value { progress_of result ≡ brk_progress wanted }
    ensures row_after { lent row.new ≡ brk_of memory wanted (lent row.old) }
    ensures same_slices { SameSlices row.old row.new }
{
    let Value::Concrete(address) = wanted else {
        return Err(unsupported(NotSupportedReason::BrkUninitializedAddress));
    };
    let program_break = row.words[BREAK];
    if address < program_break || memory <= address / 8 {
        row.write_slot(A0, Value::Concrete(program_break));
    } else {
        row.words[BREAK] = address;
    }
    Ok(())
}

#[tactic(auto, unfolding(crate::specs::Calls::read, crate::specs::Calls::read_to, reading::specs::Reading::onwards))]
fn execute_read(row: &mut RowMut, tape: &[u64], used: &mut usize) -> Result<(), Outcome>
    ensures row_after { reached (lent row.new) used.new result ≡ read_of tape.now used.old (lent row.old) }
    ensures same_slices { SameSlices row.old row.new }
{
    let reasons = Reasons {
        file: NotSupportedReason::ReadOtherThanStdin,
        buffer: NotSupportedReason::ReadUninitializedBuffer,
        size: NotSupportedReason::ReadUninitializedSize,
    };
    let memory = row.view().memory_words() as u64;
    let buffer = transfer_of(row.view(), STDIN, reasons, memory)?;
    read_bytes(row, tape, buffer.size, (buffer.address / 8) as usize, used)?;
    row.write_slot(A0, Value::Concrete(buffer.size));
    Ok(())
}

fn all_concrete(row: RowRef, n: usize, m: usize) -> bool
    requires { m + n ≤ memory_words (seen row) }
    ensures { result ≡ all_concrete n m (seen row.entry) }
{
    for k in 0..n {
        match row.read_memory(m + k) {
            Value::Concrete(_) => {}
            Value::Uninitialized => return false,
        }
    }
    true
}

#[tactic(auto, unfolding(crate::specs::Calls::write, crate::specs::Calls::write_from))]
fn execute_write(row: RowRef) -> Step
    ensures { result ≡ write_of (seen row.entry) }
{
    let reasons = Reasons {
        file: NotSupportedReason::WriteOtherThanStdout,
        buffer: NotSupportedReason::WriteUninitializedBuffer,
        size: NotSupportedReason::WriteUninitializedSize,
    };
    let buffer = match transfer_of(row, STDOUT, reasons, row.memory_words() as u64) {
        Ok(buffer) => buffer,
        Err(outcome) => return Step::Ended(outcome),
    };
    let n = ((buffer.size + buffer.address % 8 + 7) / 8) as usize;
    if all_concrete(row, n, (buffer.address / 8) as usize) {
        Step::Write {
            buffer: buffer.address,
            size: buffer.size,
        }
    } else {
        Step::Ended(Outcome::Found(Bug::AccessToUninitializedMemory(
            UninitializedMemoryAccessReason::ReadUninitializedMemoryAddress,
        )))
    }
}

#[tactic(auto, unfolding(crate::specs::Calls::exit))]
fn execute_exit(code: Value) -> Outcome
    ensures { result ≡ exit_of code }
{
    match code {
        Value::Concrete(0) => Outcome::Exited,
        Value::Concrete(exit_code) => Outcome::Found(Bug::ExitCodeGreaterZero(exit_code)),
        Value::Uninitialized => unsupported(NotSupportedReason::ExitUninitializedCode),
    }
}

#[tactic(auto, unfolding(crate::specs::Calls::id_of))]
fn id_of(a7: Value) -> SyscallId
    ensures { result ≡ id_of a7 }
{
    match a7 {
        Value::Concrete(number) => syscall_id(number),
        Value::Uninitialized => SyscallId::Unknown,
    }
}

#[tactic(auto, unfolding(crate::specs::Calls::call_of))]
fn execute_call(row: &mut RowMut, id: SyscallId, tape: &[u64], used: &mut usize) -> Step
    ensures row_after { step_to result used.new (lent row.new) ≡ call_of id tape.now used.old (lent row.old) }
    ensures same_slices { SameSlices row.old row.new }
{
    match id {
        SyscallId::Brk => {
            let wanted = row.view().read_slot(A0);
            let memory = row.view().memory_words() as u64;
            step_of(execute_brk(row, wanted, memory))
        }
        SyscallId::Read => step_of(execute_read(row, tape, used)),
        SyscallId::Write => execute_write(row.view()),
        SyscallId::Exit => Step::Ended(execute_exit(row.view().read_slot(A0))),
        SyscallId::Unknown => Step::Ended(unsupported(NotSupportedReason::UnknownSystemCall)),
    }
}

// The call that a7 names; pc moves on even where it errs.
#[tactic(auto, unfolding(crate::specs::Calls::system))]
pub fn execute_ecall(row: &mut RowMut, tape: &[u64], used: &mut usize) -> Step
    ensures row_after { step_to result used.new (lent row.new) ≡ system_of tape.now used.old (lent row.old) }
    ensures same_slices { SameSlices row.old row.new }
{
    let id = id_of(row.view().read_slot(A7));
    let step = execute_call(row, id, tape, used);
    row.words[PC] = row.words[PC].wrapping_add(INSTRUCTION_SIZE);
    step
}

// Ends a write call that a step handed out.
pub fn complete_write(row: &mut RowMut, size: u64)
    ensures row_after { lent row.new ≡ completed size (lent row.old) }
    ensures same_slices { SameSlices row.old row.new }
{
    row.write_slot(A0, Value::Concrete(size));
}
