// What rows and stores may have at most.

// The rows of a store.
pub const MOST_ROWS: usize = 4096;
// The bytes of a row's memory are a multiple of this,
pub const MEMORY_UNIT: u64 = 1024;
// and at most so many.
pub const MOST_MEMORY_BYTES: u64 = 1_048_576;
// The log words of a row.
pub const MOST_LOG: u64 = 65_536;
