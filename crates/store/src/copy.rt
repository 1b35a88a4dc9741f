// A row copied over a later one.
ghost use Rattle.std.specs.Prelude.{◌≡◌, ◌+◌, ◌≤◌, ◌<◌, length};
ghost use Rattle.store.specs.Store.{row_copied};
ghost use Rattle.store.specs.Parts.{part_copied};
ghost use Rattle.store.specs.Lent.{rows_lent, SameStore};

use crate::layout::Layout;
use crate::view::StoreMut;

// `count` elements from place `from` on are copied to place `to` on. A loop, which the compiler makes vector code: within one slice
// copy_from_slice comes to a memmove, and a host need have no more than memcpy and memset; copy_within takes a fifth longer.
fn copy_part<T: Copy>(all: &mut [T], from: usize, to: usize, count: usize)
    requires apart { from + count ≤ to }
    requires within { to + count ≤ length all.old }
    ensures { all.new ≡ part_copied from to count all.old }
{
    for i in 0..count {
        all[to + i] = all[from + i];
    }
}

impl StoreMut<'_> {
    // Row `from` is copied over row `to`, which is a later one.
    pub fn copy_row(&mut self, from: usize, to: usize)
        requires later { from < to }
        requires within { to < self.old.layout.rows }
        ensures rows_after { rows_lent self.new ≡ row_copied from to (rows_lent self.old) }
        ensures same_store { SameStore self.old self.new }
    {
        let Layout { words, marks, .. } = self.layout;
        copy_part(self.words, from * words, to * words, words);
        copy_part(self.marks, from * marks, to * marks, marks);
    }
}
