// The order carried out on the rows, by at most one exchange of two rows for each that is kept.
ghost use Rattle.std.specs.Prelude.{◌≡◌, ◌<◌, ◌≤◌, length, take, set, get_or};
ghost use Rattle.rows.specs.Limits.{most_rows};
ghost use Rattle.store.specs.Lent.{rows_lent, SameStore};
ghost use Rattle.rounds.specs.Rounds.{stored};
ghost use Rattle.selection.specs.Places.{Numbers, Own, Inverse, rows_numbered};

use rows::limits::MOST_ROWS;
use store::view::StoreMut;

// Where each of some rows is, and which row is at each place.
#[derive(Drop)]
struct Places {
    rows: usize,
    place_of_row: [usize; MOST_ROWS],
    row_at_place: [usize; MOST_ROWS],
    ghost inverse: { Inverse rows place_of_row row_at_place },
}

impl Places {
    // Every row at the place of its own number. Filled in place, since a copy would take 32 KiB more of the stack.
    fn new(rows: usize) -> Places
        requires { rows ≤ most_rows }
        ensures rows { result.rows ≡ rows }
        ensures own { Own rows result.row_at_place }
    {
        let mut places = Places {
            rows: 0,
            place_of_row: [0; MOST_ROWS],
            row_at_place: [0; MOST_ROWS],
        };
        for place in 0..rows {
            places.place_of_row[place] = place;
            places.row_at_place[place] = place;
        }
        places.rows = rows;
        places
    }

    // Row `incoming` comes to `place`, and the row that is there goes where `incoming` was, which is answered.
    fn exchange(&mut self, place: usize, incoming: usize) -> usize
        requires place { place < self.old.rows }
        requires incoming { incoming < self.old.rows }
        ensures from { result ≡ get_or self.old.place_of_row incoming 0 }
        ensures rows { self.new.rows ≡ self.old.rows }
        ensures exchanged { self.new.row_at_place
            ≡ set (set self.old.row_at_place result (get_or self.old.row_at_place place 0)) place incoming }
    {
        let from = self.place_of_row[incoming];
        let displaced = self.row_at_place[place];
        self.place_of_row[displaced] = from;
        self.place_of_row[incoming] = place;
        self.row_at_place[from] = displaced;
        self.row_at_place[place] = incoming;
        from
    }
}

// The rows of `order` come first.
fn place_kept(store: &mut StoreMut, order: &[usize])
    requires numbers { Numbers store.old.layout.rows order.now }
    ensures first { take (length order.now) (rows_lent store.new) ≡ rows_numbered order.now (rows_lent store.old) }
    ensures same_store { SameStore store.old store.new }
{
    let mut places = Places::new(store.layout.rows);
    for (place, incoming) in order.iter().enumerate() {
        let from = places.exchange(place, *incoming);
        store.swap_rows(place, from);
    }
}

// The rows of `order` come first, and the others become zero.
pub(crate) fn move_kept(store: &mut StoreMut, order: &[usize])
    requires numbers { Numbers store.old.layout.rows order.now }
    ensures rows { rows_lent store.new ≡ stored store.old.layout (rows_numbered order.now (rows_lent store.old)) }
    ensures same_store { SameStore store.old store.new }
{
    place_kept(store, order);
    store.zero_rows(order.len());
}
