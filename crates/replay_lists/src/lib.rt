// What the programs that replay lists share: a list's lines and columns, a digest of what a call leaves, and the count of
// cases that agree.
#![tactic(auto)]

pub mod answer;
pub mod columns;
pub mod digest;
pub mod digits;
pub mod float;
mod line;
pub mod program;
pub mod reader;
pub mod replay;
pub mod sizes;
pub mod table;
pub mod tally;
