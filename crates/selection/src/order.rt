// Which rows are kept, and in which order: found on their numbers and scores.
ghost use Rattle.std.specs.Prelude.{◌≡◌, ◌≤◌, [], length, None};
ghost use Rattle.rows.specs.Limits.{most_rows};
ghost use Rattle.selection.specs.Selecting.{candidates, kept_numbers};
ghost use Rattle.selection.specs.Scanning.{lower_of, considered, lowest_in};

use arrayvec::ArrayVec;
use rows::limits::MOST_ROWS;

// A row number and its score.
#[derive(Clone, Copy)]
pub struct ScoredRow {
    pub row: usize,
    pub score: f64,
}

// The lower of the two: the first where they are equal.
#[tactic(auto, unfolding(crate::specs::Scanning::lower_of))]
fn lower_of(best: ScoredRow, x: ScoredRow) -> ScoredRow
    ensures { result ≡ lower_of best x }
{
    if x.score < best.score { x } else { best }
}

// The lowest so far with a row more, which counts where its flag is set.
fn consider(lowest: Option<ScoredRow>, flag: bool, x: ScoredRow) -> Option<ScoredRow>
    ensures { result ≡ considered flag lowest x }
{
    if !flag {
        return lowest;
    }
    match lowest {
        None => Some(x),
        Some(best) => Some(lower_of(best, x)),
    }
}

// The first of the lowest scores of the rows whose flag is set.
fn next_rarest(scores: &[f64], live: &[bool]) -> Option<ScoredRow>
    requires { length scores.now ≤ length live.now }
    ensures { result ≡ lowest_in None (candidates 0 scores.now live.now) }
{
    let mut lowest = None;
    for (row, score) in scores.iter().enumerate() {
        let x = ScoredRow { row, score: *score };
        lowest = consider(lowest, live[row], x);
    }
    lowest
}

// The numbers of the rows to keep, in the order in which they are kept, come into `order`. The flag of each is cleared.
// The order is lent: answered by value it would be copied, and the stack would have to be 4 KiB larger.
fn find_order(
    scores: &[f64],
    live: &mut [bool],
    selection: usize,
    order: &mut ArrayVec<usize, MOST_ROWS>,
)
    requires a_flag_each { length scores.now ≤ length live.old }
    requires few { length scores.now ≤ most_rows }
    requires empty { order.old.items ≡ [] }
    ensures { order.new.items ≡ kept_numbers selection scores.now live.old }
{
    while order.len() < selection {
        let Some(rarest) = next_rarest(scores, live) else {
            return;
        };
        order.push(rarest.row);
        live[rarest.row] = false;
    }
}

// The same, with the flags left as they are.
pub(crate) fn order_of(
    scores: &[f64],
    flags: &[bool],
    selection: usize,
    order: &mut ArrayVec<usize, MOST_ROWS>,
)
    requires a_flag_each { length scores.now ≤ length flags.now }
    requires few { length flags.now ≤ most_rows }
    requires empty { order.old.items ≡ [] }
    ensures { order.new.items ≡ kept_numbers selection scores.now flags.now }
{
    let mut room = [false; MOST_ROWS];
    let live = &mut room[..flags.len()];
    live.copy_from_slice(flags);
    find_order(scores, live, selection, order);
}
