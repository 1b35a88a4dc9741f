// The test of a table that is lent.
ghost use Rattle.std.specs.Prelude.{◌≡◌, [], ◌∷◌, ◌≤◌};
ghost use Rattle.rows.specs.Limits.{most_memory};
ghost use Rattle.checks.specs.Tests.{checked_by};
ghost use Rattle.tables.specs.Lent.{table_test};

use crate::address::BYTE_VALUES;
use checks::refusal::{Refusal, test};

// The cells that a row has besides its memory words.
const OTHER_CELLS: usize = 320;

// 32: whether there are just so many counters as rows of `memory` memory words need.
pub fn check_table(memory: u64, counters: usize) -> Result<(), Refusal>
    requires { memory ≤ most_memory }
    ensures { result ≡ checked_by (table_test memory counters ∷ []) }
{
    let cells = memory as usize + OTHER_CELLS;
    test(counters == BYTE_VALUES * cells, Refusal::TableLength)
}
