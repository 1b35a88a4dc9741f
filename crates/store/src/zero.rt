// Rows set to zero.
ghost use Rattle.std.specs.Prelude.{◌≡◌, ◌≤◌, ◌<◌, set};
ghost use Rattle.store.specs.Store.{zero_row, rows_zeroed};
ghost use Rattle.store.specs.Lent.{rows_lent, SameStore};

use crate::layout::Layout;
use crate::view::StoreMut;

impl StoreMut<'_> {
    fn zero_row(&mut self, r: usize)
        requires within { r < self.old.layout.rows }
        ensures rows_after { rows_lent self.new ≡ set (rows_lent self.old) r (zero_row self.old.layout) }
        ensures same_store { SameStore self.old self.new }
    {
        let Layout { words, marks, .. } = self.layout;
        self.words[r * words..r * words + words].fill(0);
        self.marks[r * marks..r * marks + marks].fill(0);
    }

    // The rows from `from` on become zero.
    pub fn zero_rows(&mut self, from: usize)
        requires within { from ≤ self.old.layout.rows }
        ensures rows_after { rows_lent self.new ≡ rows_zeroed self.old.layout from (rows_lent self.old) }
        ensures same_store { SameStore self.old self.new }
    {
        for r in from..self.layout.rows {
            self.zero_row(r);
        }
    }
}
