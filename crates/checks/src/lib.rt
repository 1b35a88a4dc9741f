// The tests that entries make before they change anything. For the layers above.
#![tactic(auto)]

pub mod refusal;
pub mod segments;
pub mod valid_row;
