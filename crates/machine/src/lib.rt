// The machine that bench and printer share: fetch, step and run of one executor (the Rust's Executor::run and below), and the bytes of its
// write calls. For the layers above.
#![tactic(auto)]

pub mod run;
pub mod step;
pub mod write;
