// What an executor cannot do (the Rust's RaritySimulationError, whose texts are reasons here).
// Reaching the limit of a run is no error of this kind: see Progress in outcome.rt.
ghost use Rattle.std.specs.Prelude.{◌≡◌};
ghost use Rattle.answers.specs.Numbers.{error_number, error_value};

// The errors, numbers 20, 21, 23, 24, 25 and 71.
#[derive(Clone, Copy)]
pub enum ExecutorError {
    NotSupported(NotSupportedReason),
    InvalidInstructionEncoding,
    // pc outside memory, where the Rust panics
    PcOutOfRange,
    TapeEmpty,
    LogFull,
    // a write call needs more output than is left; the counter runner alone has an output
    OutputFull,
}

// What 20 cannot do, each with its value.
#[derive(Clone, Copy)]
pub enum NotSupportedReason {
    FetchUninitializedWord = 1,
    BrkUninitializedAddress = 2,
    ReadOtherThanStdin = 3,
    ReadUninitializedBuffer = 4,
    ReadUninitializedSize = 5,
    WriteOtherThanStdout = 6,
    WriteUninitializedBuffer = 7,
    WriteUninitializedSize = 8,
    ExitUninitializedCode = 9,
    UnknownSystemCall = 10,
    LdUninitializedBase = 11,
    SdUninitializedBase = 12,
    JalrUninitializedBase = 13,
}

impl ExecutorError {
    pub(crate) fn number(self) -> u64
        ensures { result ≡ error_number self }
    {
        match self {
            ExecutorError::NotSupported(_) => 20,
            ExecutorError::InvalidInstructionEncoding => 21,
            ExecutorError::PcOutOfRange => 23,
            ExecutorError::TapeEmpty => 24,
            ExecutorError::LogFull => 25,
            ExecutorError::OutputFull => 71,
        }
    }

    pub(crate) fn value(self) -> u64
        ensures { result ≡ error_value self }
    {
        match self {
            ExecutorError::NotSupported(reason) => reason as u64,
            _ => 0,
        }
    }
}
