// How a store is cut into rows.
ghost use Rattle.std.specs.Prelude.{◌≡◌, ◌≤◌};
ghost use Rattle.rows.specs.Limits.{most_memory, most_log};
ghost use Rattle.store.specs.Store.{layout};

use rows::row::{HEADER, REGISTERS};

// So many rows, of so many words and so many marks each.
#[derive(Clone, Copy)]
pub struct Layout {
    pub rows: usize,
    pub words: usize,
    pub marks: usize,
}

impl Layout {
    // For rows of `memory` memory words and `log` log words each.
    pub fn new(rows: usize, memory: u64, log: u64) -> Layout
        requires memory { memory ≤ most_memory }
        requires log { log ≤ most_log }
        ensures { result ≡ layout rows memory log }
    {
        Layout {
            rows,
            words: HEADER + REGISTERS + memory as usize + log as usize,
            marks: REGISTERS + memory as usize,
        }
    }
}
