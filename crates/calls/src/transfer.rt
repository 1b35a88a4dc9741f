// The buffer of a read or write call, checked before any byte of it is touched.
ghost use Rattle.std.specs.Prelude.{◌≡◌, ◌^◌, ◌<◌};
ghost use Rattle.rows.specs.Lent.{seen};
ghost use Rattle.calls.specs.Calls.{valid_range, buffer_and_size, is_file, transfer_of};
ghost use Rattle.calls.specs.InMemory.{InMemory};

use answers::bug::Bug;
use answers::error::{ExecutorError, NotSupportedReason};
use answers::outcome::Outcome;
use rows::row::RowRef;
use values::Value;

// Registers by their names in the calling convention.
pub(crate) const A0: usize = 10;

const A1: usize = 11;

const A2: usize = 12;

pub(crate) const A7: usize = 17;

// Address and size in bytes, all of it in memory.
#[derive(Clone, Copy)]
pub struct Buffer {
    pub address: u64,
    pub size: u64,
}

// Why a call on another file, without a buffer or without a size is not supported.
#[derive(Clone, Copy)]
pub struct Reasons {
    pub file: NotSupportedReason,
    pub buffer: NotSupportedReason,
    pub size: NotSupportedReason,
}

pub(crate) fn unsupported(reason: NotSupportedReason) -> Outcome
    ensures { result ≡ Outcome.Failed (ExecutorError.NotSupported reason) }
{
    Outcome::Failed(ExecutorError::NotSupported(reason))
}

// A buffer whose end passes 2^64 - 1 is out of range, where the Rust panics.
#[tactic(auto, unfolding(crate::specs::Calls::valid_range))]
fn check_for_valid_memory_range(address: u64, size: u64, memory: u64) -> Result<Buffer, Outcome>
    requires { memory < 2 ^ 60 }
    ensures value { result ≡ valid_range address size memory }
    ensures in_memory { InMemory memory result }
{
    if memory <= address / 8 || u64::MAX - address < size || 8 * memory < address + size {
        return Err(Outcome::Found(Bug::AccessToOutOfRangeAddress));
    }
    Ok(Buffer { address, size })
}

// The buffer that a1 and a2 name.
#[tactic(auto, unfolding(crate::specs::Calls::buffer_and_size))]
fn buffer_and_size(reasons: Reasons, a1: Value, a2: Value, memory: u64) -> Result<Buffer, Outcome>
    requires { memory < 2 ^ 60 }
    ensures value { result ≡ buffer_and_size reasons a1 a2 memory }
    ensures in_memory { InMemory memory result }
{
    let Value::Concrete(address) = a1 else {
        return Err(unsupported(reasons.buffer));
    };
    let Value::Concrete(size) = a2 else {
        return Err(unsupported(reasons.size));
    };
    check_for_valid_memory_range(address, size, memory)
}

fn is_file(fd: u64, a0: Value) -> bool
    ensures { result ≡ is_file fd a0 }
{
    a0 == Value::Concrete(fd)
}

// The buffer that a0, a1 and a2 name for a call on the file fd, in so many words of memory.
#[tactic(auto, unfolding(crate::specs::Calls::transfer_of))]
pub(crate) fn transfer_of(
    row: RowRef,
    fd: u64,
    reasons: Reasons,
    memory: u64,
) -> Result<Buffer, Outcome>
    requires { memory < 2 ^ 60 }
    ensures value { result ≡ transfer_of fd reasons memory (seen row.entry) }
    ensures in_memory { InMemory memory result }
{
    if !is_file(fd, row.read_slot(A0)) {
        return Err(unsupported(reasons.file));
    }
    buffer_and_size(reasons, row.read_slot(A1), row.read_slot(A2), memory)
}
