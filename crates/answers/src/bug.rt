// What a search looks for (the Rust's bug.rs).
ghost use Rattle.std.specs.Prelude.{◌≡◌};
ghost use Rattle.answers.specs.Numbers.{bug_number, bug_value};

// The bugs, numbers 41 to 45.
#[derive(Clone, Copy)]
pub enum Bug {
    DivisionByZero,
    AccessToUninitializedMemory(UninitializedMemoryAccessReason),
    // the address
    AccessToUnalignedAddress(u64),
    AccessToOutOfRangeAddress,
    // the exit code
    ExitCodeGreaterZero(u64),
}

// Who used a word that nobody wrote, each with its value.
#[derive(Clone, Copy)]
pub enum UninitializedMemoryAccessReason {
    InstructionWithUninitializedOperand = 1,
    // by the write call
    ReadUninitializedMemoryAddress = 2,
}

impl Bug {
    pub(crate) fn number(self) -> u64
        ensures { result ≡ bug_number self }
    {
        match self {
            Bug::DivisionByZero => 41,
            Bug::AccessToUninitializedMemory(_) => 42,
            Bug::AccessToUnalignedAddress(_) => 43,
            Bug::AccessToOutOfRangeAddress => 44,
            Bug::ExitCodeGreaterZero(_) => 45,
        }
    }

    pub(crate) fn value(self) -> u64
        ensures { result ≡ bug_value self }
    {
        match self {
            Bug::AccessToUninitializedMemory(reason) => reason as u64,
            Bug::AccessToUnalignedAddress(address) => address,
            Bug::ExitCodeGreaterZero(exit_code) => exit_code,
            Bug::DivisionByZero | Bug::AccessToOutOfRangeAddress => 0,
        }
    }
}
