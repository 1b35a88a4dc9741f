// The rarest rows come first, and the others become zero (the Rust's select_rarest). For the layers above.
// The order is found on numbers; then for each kept row at most one exchange of two rows is made.
#![tactic(auto)]

ghost use Rattle.std.specs.Prelude.{◌≡◌, length};
ghost use Rattle.store.specs.Lent.{rows_lent, SameStore};
ghost use Rattle.rounds.specs.Rounds.{stored};
ghost use Rattle.selection.specs.Selecting.{kept_numbers, kept_rows};

pub mod order;
pub mod places;

use arrayvec::ArrayVec;
use store::view::StoreMut;

// Keeps the rows whose flag is set with the lowest scores, at most `selection` of them, in rising order, equals in row order.
// Answers how many.
pub fn select_rarest(
    store: &mut StoreMut,
    scores: &[f64],
    flags: &[bool],
    selection: usize,
) -> usize
    requires a_score_each { length scores.now ≡ store.old.layout.rows }
    requires a_flag_each { length flags.now ≡ store.old.layout.rows }
    ensures value { result ≡ length (kept_numbers selection scores.now flags.now) }
    ensures rows { rows_lent store.new ≡ stored store.old.layout (kept_rows selection scores.now flags.now (rows_lent store.old)) }
    ensures same_store { SameStore store.old store.new }
{
    let mut order = ArrayVec::new();
    order::order_of(scores, flags, selection, &mut order);
    places::move_kept(store, order.as_slice());
    order.len()
}
