// The next marked place.
ghost use Rattle.std.specs.Prelude.{◌≡◌, true, ◌≤◌, ◌<◌, length};
ghost use Rattle.marked.specs.Marks.{Unmarked, NextMarked};

const LONG: usize = 256;

const SHORT: usize = 16;

// Whether all marks are 0: one `|` a mark, of which the compiler takes many at a time.
fn are_unmarked(marks: &[u8]) -> bool
    ensures { result ≡ true → Unmarked marks.now 0 (length marks.now) }
{
    marks.iter().fold(0, |any, mark| any | *mark) == 0
}

// Past the blocks of `step` marks that are all 0.
fn skip_blocks(marks: &[u8], from: usize, step: usize) -> usize
    requires within { from ≤ length marks.now }
    requires a_step { 0 < step }
    ensures { Unmarked marks.now from result }
{
    let mut i = from;
    while step <= marks.len() - i && are_unmarked(&marks[i..i + step]) {
        i += step;
    }
    i
}

// Past the marks that are 0, one by one.
fn skip_marks(marks: &[u8], from: usize) -> usize
    requires { from ≤ length marks.now }
    ensures { NextMarked marks.now from result }
{
    let mut i = from;
    while i < marks.len() && marks[i] == 0 {
        i += 1;
    }
    i
}

// The first marked place from `from` on, or the number of marks: past long blocks first, then short ones, then mark by mark.
pub(crate) fn pass_over(marks: &[u8], from: usize) -> usize
    requires { from ≤ length marks.now }
    ensures { NextMarked marks.now from result }
{
    let far = skip_blocks(marks, from, LONG);
    let near = skip_blocks(marks, far, SHORT);
    skip_marks(marks, near)
}

// The same. Where the place itself is marked, as most are that follow a marked one, nothing is called.
pub fn next_marked(marks: &[u8], from: usize) -> usize
    requires { from ≤ length marks.now }
    ensures { NextMarked marks.now from result }
{
    if from < marks.len() && marks[from] != 0 {
        from
    } else {
        pass_over(marks, from)
    }
}
