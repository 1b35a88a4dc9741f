// The sheet that a trainer runs: its bytes read as the options, the program and the tape of a search. For the crate report. `parse`
// asks nothing of the caller, `read_words` that the words lie within the bytes.
#![tactic(auto)]

pub mod fields;
pub mod limits;
pub mod parse;
pub mod tape;
