// What an instruction does, from the instruction, its pc and the registers (the Rust's execute and execute_..).
ghost use Rattle.std.specs.Prelude.{◌≡◌, ◌<◌};
ghost use Rattle.riscu.specs.Registers.{Registers};
ghost use Rattle.values.specs.Registers.{register};
ghost use Rattle.effects.specs.Effects.{effect_of};

use crate::arithmetic::Op;
use crate::rules::{beq, binary_op, divu_remu, jal, jalr, ld, lui, sd};
use answers::outcome::Outcome;
use riscu::instruction::Instruction;
use values::{Slots, Value};

// What an instruction does to the machine that executes it. Each but a call and an end gives the next pc.
#[derive(Clone, Copy)]
pub enum Effect {
    // register rd, from 1 to 31, takes a value
    Assign {
        rd: usize,
        value: Value,
        next_pc: u64,
    },
    // register rd, from 1 to 31, takes a memory word
    Load {
        rd: usize,
        word: usize,
        next_pc: u64,
    },
    // a memory word takes a value
    Store {
        word: usize,
        value: Value,
        next_pc: u64,
    },
    // nothing but the next pc
    Jump {
        next_pc: u64,
    },
    // a system call is due
    Call,
    // the executor ends
    End(Outcome),
}

// The effect of an instruction at pc, with these registers and a memory of `memory` words. Each arm reads its own
// operands, so that an instruction is dispatched once.
#[tactic(auto, unfolding(crate::specs::Effects::effect_of))]
pub fn effect_of(registers: Slots, instruction: &Instruction, pc: u64, memory: u64) -> Effect
    requires registers { Registers instruction.now }
    ensures { result ≡ effect_of instruction.now pc (register registers.entry) memory }
{
    let x = |n: usize| registers.register(n);
    match instruction {
        Instruction::Lui(t) => lui(t.rd, t.imm, pc),
        Instruction::Jal(t) => jal(t.rd, t.imm, pc),
        Instruction::Jalr(t) => jalr(t.rd, t.imm, pc, x(t.rs1)),
        Instruction::Beq(t) => beq(t, pc, x(t.rs1), x(t.rs2)),
        Instruction::Ld(t) => ld(t.rd, t.imm, pc, x(t.rs1), memory),
        Instruction::Sd(t) => sd(t.imm, pc, x(t.rs1), x(t.rs2), memory),
        Instruction::Addi(t) => binary_op(Op::Add, t.rd, pc, x(t.rs1), Value::Concrete(t.imm)),
        Instruction::Add(t) => binary_op(Op::Add, t.rd, pc, x(t.rs1), x(t.rs2)),
        Instruction::Sub(t) => binary_op(Op::Sub, t.rd, pc, x(t.rs1), x(t.rs2)),
        Instruction::Mul(t) => binary_op(Op::Mul, t.rd, pc, x(t.rs1), x(t.rs2)),
        Instruction::Sltu(t) => binary_op(Op::Sltu, t.rd, pc, x(t.rs1), x(t.rs2)),
        Instruction::Divu(t) => divu_remu(Op::Divu, t.rd, pc, x(t.rs1), x(t.rs2)),
        Instruction::Remu(t) => divu_remu(Op::Remu, t.rd, pc, x(t.rs1), x(t.rs2)),
        Instruction::Ecall => Effect::Call,
    }
}
