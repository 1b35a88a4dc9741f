// A store that is lent: words and marks of all rows, and how they are cut.
ghost use Rattle.std.specs.Prelude.{◌≡◌, ◌<◌, length};
ghost use Rattle.store.specs.Store.{Fit};

use crate::layout::Layout;
use rows::row::RowRef;

// A store that is lent to be read.
#[derive(Clone, Copy)]
pub struct StoreRef<'a> {
    pub words: &'a [u64],
    pub marks: &'a [u8],
    pub layout: Layout,
    ghost fit: { Fit layout words.now marks.now },
}

impl<'a> StoreRef<'a> {
    ghost use Rattle.rows.specs.Lent.{seen};
    ghost use Rattle.store.specs.Store.{nth_row};
    ghost use Rattle.store.specs.Lent.{rows_seen};

    // Row r, to be read.
    pub fn row(self, r: usize) -> RowRef<'a>
        requires within { r < self.layout.rows }
        ensures value { seen result ≡ nth_row (rows_seen self.entry) r }
        ensures marks { length result.marks.now ≡ self.entry.layout.marks }
    {
        let from_word = r * self.layout.words;
        let from_mark = r * self.layout.marks;
        RowRef {
            words: &self.words[from_word..from_word + self.layout.words],
            marks: &self.marks[from_mark..from_mark + self.layout.marks],
        }
    }
}

// A store that is lent to be changed.
#[derive(Drop)]
pub struct StoreMut<'a> {
    pub words: &'a mut [u64],
    pub marks: &'a mut [u8],
    pub layout: Layout,
    ghost fit: { Fit layout words.now marks.now },
}

impl<'a> StoreMut<'a> {
    ghost use Rattle.store.specs.Lent.{rows_seen, rows_lent};

    // The same store, to be read.
    pub fn view(&self) -> StoreRef<'_>
        ensures rows { rows_seen result ≡ rows_lent self.now }
        ensures layout { result.layout ≡ self.now.layout }
    {
        StoreRef {
            words: &*self.words,
            marks: &*self.marks,
            layout: self.layout,
        }
    }
}
