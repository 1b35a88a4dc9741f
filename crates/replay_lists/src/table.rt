// A table that is lent to a call, and what is left in it.
ghost use Rattle.std.specs.Prelude.{◌≡◌};
ghost use Rattle.replay_lists.specs.Tables.{all_are, is_left};

use crate::columns::{length_within, number_at};

// As many counters as rows of 2,048 bytes of memory need.
pub const COUNTERS: usize = 147_456;

// What stands in them before a call.
pub const JUNK_COUNTER: u32 = 7;

fn all_are(counters: &[u32], value: u64) -> bool
    ensures { result ≡ all_are value counters.now }
{
    counters.iter().all(|counter| u64::from(*counter) == value)
}

// Whether each counter that was lent holds what the line says, and the others are as they were. The line has in column `lent` how many were lent, and
// in column `left` what each of them is afterwards.
pub fn is_left(numbers: &[u64], lent: usize, left: usize, table: &[u32]) -> bool
    ensures { result ≡ is_left numbers.now lent left table.now }
{
    let Some(lent) = length_within(numbers, lent, table.len()) else {
        return false;
    };
    all_are(&table[..lent], number_at(numbers, left))
        && all_are(&table[lent..], u64::from(JUNK_COUNTER))
}
