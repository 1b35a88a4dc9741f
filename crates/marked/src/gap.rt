// A gap: places whose marks are known to be 0, so that they need not be looked at again.
ghost use Rattle.std.specs.Prelude.{◌≡◌, ◌≤◌, length};
ghost use Rattle.marked.specs.Marks.{Unmarked, NextMarked};
ghost use Rattle.marked.specs.Gaps.{longer};

use crate::next::{next_marked, pass_over};

// From place `from` to place `to`.
#[derive(Clone, Copy)]
pub struct Gap {
    pub from: usize,
    pub to: usize,
}

impl Gap {
    // The longer of two gaps.
    #[tactic(auto, unfolding(crate::specs::Gaps::longer))]
    pub fn longer(self, other: Gap) -> Gap
        requires forward { self.from ≤ self.to }
        requires other_forward { other.from ≤ other.to }
        ensures { result ≡ longer self other }
    {
        if self.to - self.from < other.to - other.from {
            other
        } else {
            self
        }
    }

    // The first marked place from `from` on, or the number of marks. A search that starts in the gap starts at its end.
    pub fn next_marked(self, marks: &[u8], from: usize) -> usize
        requires within { from ≤ length marks.now }
        requires unmarked { Unmarked marks.now self.from self.to }
        ensures { NextMarked marks.now from result }
    {
        if self.from <= from && from < self.to {
            pass_over(marks, self.to)
        } else {
            next_marked(marks, from)
        }
    }
}
