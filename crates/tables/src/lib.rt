// Counting in a lent table (change 4): rows are counted in it, each row's score is taken from it, and it is cleared again. For the layers above.
#![tactic(auto)]

pub mod address;
pub mod average;
pub mod clear;
pub mod count;
pub mod lent;
pub mod uncount;
