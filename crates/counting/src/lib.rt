// Cells, and counters by counting over the rows (the Rust's compute_counter_addresses and count_address). For the layers above.
#![tactic(auto)]

pub mod cells;
pub mod counter;
pub mod taking;
