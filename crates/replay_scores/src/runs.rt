// The store of a line: words and marks are 0 but for runs of one value.
use crate::columns::TRIPLE;
use replay_lists::columns::{length_within, number_at};

// Columns of a run.
const FROM: usize = 0;

const COUNT: usize = 1;

const VALUE: usize = 2;

// Puts a run of one value in its places. None if there are no such places.
fn put_run<T: Copy + Drop>(places: &mut [T], run: &[u64], value: T) -> Option<()>
    requires { T.is_infallible value }
{
    let from = length_within(run, FROM, places.len())?;
    let count = length_within(run, COUNT, places.len() - from)?;
    places[from..from + count].fill(value);
    Some(())
}

// None if some run is not within the words.
pub(crate) fn put_words(runs: &[u64], words: &mut [u64]) -> Option<()> {
    for run in runs.chunks_exact(TRIPLE) {
        put_run(words, run, number_at(run, VALUE))?;
    }
    Some(())
}

// None if some run is not within the marks, or its value is no mark.
pub(crate) fn put_marks(runs: &[u64], marks: &mut [u8]) -> Option<()> {
    for run in runs.chunks_exact(TRIPLE) {
        put_run(marks, run, u8::try_from(number_at(run, VALUE)).ok()?)?;
    }
    Some(())
}
