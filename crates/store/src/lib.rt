// The lent store: the rows of all executors, one after the other in two slices. For the layers above.
#![tactic(auto)]

pub mod copy;
pub mod layout;
pub mod swap;
pub mod view;
pub mod zero;
