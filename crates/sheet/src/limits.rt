// What a program takes of a sheet.
ghost use Rattle.std.specs.Prelude.{◌≡◌};
ghost use Rattle.sheet.specs.Sheets.{bench_limits};

// The most bytes of a sheet that the bench program takes.
pub const MOST_SHEET: usize = 61_440;

// The most states that it takes.
pub const MOST_STATES: usize = 8;

// The most bytes of memory that it takes.
pub const MOST_MEMORY: usize = 1024;

// The most log words of a row that it takes.
pub const MOST_LOG: usize = 64;

// The most bytes of a sheet, states, bytes of memory and log words.
#[derive(Clone, Copy)]
pub struct Limits {
    pub bytes: u64,
    pub states: u64,
    pub memory: u64,
    pub log: u64,
}

impl Limits {
    // The bench program's.
    pub fn bench() -> Limits
        ensures { result ≡ bench_limits }
    {
        Limits {
            bytes: MOST_SHEET as u64,
            states: MOST_STATES as u64,
            memory: MOST_MEMORY as u64,
            log: MOST_LOG as u64,
        }
    }
}
