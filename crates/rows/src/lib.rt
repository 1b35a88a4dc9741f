// The row of one executor: its words and its marks, lent as two slices or as a view of them. For the layers above.
#![tactic(auto)]

pub mod limits;
pub mod row;
