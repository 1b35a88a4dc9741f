// The fourteen instructions, each with the fields of its format (the manual's R, I, S, B, U and J).
// A register is its number, from 0 to 31; an immediate is ready for use as a 64-bit number.

// The bytes that an instruction takes.
pub const INSTRUCTION_SIZE: u64 = 4;

// Two source registers and a destination.
#[derive(Clone, Copy)]
pub struct RType {
    pub rd: usize,
    pub rs1: usize,
    pub rs2: usize,
}

// A source register, an immediate and a destination.
#[derive(Clone, Copy)]
pub struct IType {
    pub rd: usize,
    pub rs1: usize,
    pub imm: u64,
}

// Two source registers and an immediate: a store.
#[derive(Clone, Copy)]
pub struct SType {
    pub rs1: usize,
    pub rs2: usize,
    pub imm: u64,
}

// Two source registers and an immediate: a branch.
#[derive(Clone, Copy)]
pub struct BType {
    pub rs1: usize,
    pub rs2: usize,
    pub imm: u64,
}

// An immediate of the upper bits and a destination.
#[derive(Clone, Copy)]
pub struct UType {
    pub rd: usize,
    pub imm: u64,
}

// A jump's immediate and a destination.
#[derive(Clone, Copy)]
pub struct JType {
    pub rd: usize,
    pub imm: u64,
}

// By the manual's names.
#[derive(Clone, Copy)]
pub enum Instruction {
    Lui(UType),
    Jal(JType),
    Jalr(IType),
    Beq(BType),
    Ld(IType),
    Sd(SType),
    Addi(IType),
    Add(RType),
    Sub(RType),
    Mul(RType),
    Sltu(RType),
    Divu(RType),
    Remu(RType),
    Ecall,
}
