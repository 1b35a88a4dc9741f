// Two rows that change places.
ghost use Rattle.std.specs.Prelude.{◌≡◌, ◌+◌, ◌≤◌, ◌<◌, length};
ghost use Rattle.store.specs.Store.{rows_swapped};
ghost use Rattle.store.specs.Parts.{parts_swapped};
ghost use Rattle.store.specs.Lent.{rows_lent, SameStore};

use crate::layout::Layout;
use crate::view::StoreMut;

// `count` elements from place a on and from place b on change places.
fn swap_parts<T>(all: &mut [T], a: usize, b: usize, count: usize)
    requires apart { a + count ≤ b }
    requires within { b + count ≤ length all.old }
    ensures { all.new ≡ parts_swapped a b count all.old }
{
    let (front, back) = all.split_at_mut(b);
    front[a..a + count].swap_with_slice(&mut back[..count]);
}

impl StoreMut<'_> {
    // Rows a and b change places; they may be one row.
    pub fn swap_rows(&mut self, a: usize, b: usize)
        requires in_order { a ≤ b }
        requires within { b < self.old.layout.rows }
        ensures rows_after { rows_lent self.new ≡ rows_swapped a b (rows_lent self.old) }
        ensures same_store { SameStore self.old self.new }
    {
        if a < b {
            let Layout { words, marks, .. } = self.layout;
            swap_parts(self.words, a * words, b * words, words);
            swap_parts(self.marks, a * marks, b * marks, marks);
        }
    }
}
