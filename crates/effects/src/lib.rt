// What an instruction does, as a value: from the instruction, its pc and the registers to an effect on some machine.
// Nothing here knows where a machine keeps its registers and memory. For the layers above.
#![tactic(auto)]

mod arithmetic;
pub mod effect;
mod rules;
