// The system calls (the Rust's system.rs), by the number in a7.
ghost use Rattle.std.specs.Prelude.{◌≡◌};
ghost use Rattle.calls.specs.CallNumbers.{syscall_id};

// The calls that there are.
#[derive(Clone, Copy)]
pub enum SyscallId {
    Exit,
    Read,
    Write,
    Brk,
    Unknown,
}

// The call of a number; all 64 bits count.
#[tactic(auto, unfolding(crate::specs::CallNumbers::syscall_id))]
pub fn syscall_id(a7: u64) -> SyscallId
    ensures { result ≡ syscall_id a7 }
{
    match a7 {
        93 => SyscallId::Exit,
        63 => SyscallId::Read,
        64 => SyscallId::Write,
        214 => SyscallId::Brk,
        _ => SyscallId::Unknown,
    }
}
