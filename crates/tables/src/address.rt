// Where a counter stands in the table.
ghost use Rattle.std.specs.Prelude.{◌≡◌, ◌≤◌, ◌<◌};
ghost use Rattle.values.specs.Values.{byte_of};
ghost use Rattle.store.specs.Store.{most_marks};
ghost use Rattle.counting.specs.Cells.{cell_of, address_of};

use counting::cells::cell_of;
use values::byte_of;

// A cell has a counter for each value of a byte.
pub(crate) const BYTE_VALUES: usize = 256;

// The address of byte b of the word x at a place.
#[tactic(auto, using(counting::proofs::Places::base_most))]
pub(crate) fn address_of(place: usize, x: u64, b: u64) -> usize
    requires place { place ≤ most_marks }
    requires byte { b < 8 }
    ensures { result ≡ address_of (cell_of place b) (byte_of x b) }
{
    BYTE_VALUES * cell_of(place, b) + byte_of(x, b) as usize
}
