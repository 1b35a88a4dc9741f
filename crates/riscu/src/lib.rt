// RISC-U: the fourteen instructions of RV64IM that label programs are made of, and their decoder.
// For hosts and for the layers below in crates.txt. The definitions are in specs/.
#![tactic(auto)]

mod bits;
pub mod decode;
mod immediate;
pub mod instruction;
