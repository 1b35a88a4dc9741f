// How an executor ends: bugs, errors and outcomes, with the number and value of each (docs/NUMBERS.md); and the answer in which a host gets them.
// For hosts and for the layers above. The numbers are given in specs/Numbers.antt.
#![tactic(auto)]

pub mod answer;
pub mod bug;
pub mod error;
pub mod finding;
pub mod outcome;
