// The system calls on a row (the Rust's execute_ecall and the calls below it). For the layers above.
#![tactic(auto)]

pub mod number;
pub mod step;
pub mod system;
pub mod transfer;
