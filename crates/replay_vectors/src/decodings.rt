// The list of decodings: a word, its form, its registers and its immediate.
ghost use Rattle.riscu.specs.Registers.{RegistersIn};

use crate::columns::{Column, has_shape};
use crate::tally::Verdict;
use riscu::decode::decode;
use riscu::instruction::{BType, IType, Instruction, JType, RType, SType, UType};

const WORD: Column = Column { at: 0, digits: 8 };

const FORM: Column = Column { at: 9, digits: 2 };

const RD: Column = Column { at: 12, digits: 2 };

const RS1: Column = Column { at: 15, digits: 2 };

const RS2: Column = Column { at: 18, digits: 2 };

const IMM: Column = Column { at: 21, digits: 16 };

// A decoding in the list's columns: 0 where the form has no such field. The form of a word that is refused is 0 too.
#[derive(Clone, Copy, Default, PartialEq)]
pub(crate) struct Fields {
    form: u64,
    pub(crate) rd: usize,
    pub(crate) rs1: usize,
    pub(crate) rs2: usize,
    imm: u64,
}

fn r_fields(form: u64, t: RType) -> Fields {
    Fields {
        form,
        rd: t.rd,
        rs1: t.rs1,
        rs2: t.rs2,
        ..Fields::default()
    }
}

fn i_fields(form: u64, t: IType) -> Fields {
    Fields {
        form,
        rd: t.rd,
        rs1: t.rs1,
        imm: t.imm,
        ..Fields::default()
    }
}

// The formats of two sources and an immediate are S and B.
fn sources_fields(form: u64, rs1: usize, rs2: usize, imm: u64) -> Fields {
    Fields {
        form,
        rs1,
        rs2,
        imm,
        ..Fields::default()
    }
}

// The formats of one register and an immediate are U and J.
fn rd_fields(form: u64, rd: usize, imm: u64) -> Fields {
    Fields {
        form,
        rd,
        imm,
        ..Fields::default()
    }
}

pub(crate) fn fields_of(instruction: Instruction) -> Fields {
    match instruction {
        Instruction::Lui(UType { rd, imm }) => rd_fields(1, rd, imm),
        Instruction::Jal(JType { rd, imm }) => rd_fields(2, rd, imm),
        Instruction::Jalr(t) => i_fields(3, t),
        Instruction::Beq(BType { rs1, rs2, imm }) => sources_fields(4, rs1, rs2, imm),
        Instruction::Ld(t) => i_fields(5, t),
        Instruction::Sd(SType { rs1, rs2, imm }) => sources_fields(6, rs1, rs2, imm),
        Instruction::Addi(t) => i_fields(7, t),
        Instruction::Add(t) => r_fields(8, t),
        Instruction::Sub(t) => r_fields(9, t),
        Instruction::Mul(t) => r_fields(10, t),
        Instruction::Sltu(t) => r_fields(11, t),
        Instruction::Divu(t) => r_fields(12, t),
        Instruction::Remu(t) => r_fields(13, t),
        Instruction::Ecall => Fields {
            form: 14,
            ..Fields::default()
        },
    }
}

// The instruction of a word, if it is a valid encoding. It names registers that there are.
#[tactic(auto, using(riscu::proofs::Registers::decoded_registers))]
pub(crate) fn instruction_of(word: u32) -> Option<Instruction>
    ensures { RegistersIn result }
{
    decode(word)
}

// The line's columns.
fn fields_at(line: &[u8]) -> Fields {
    Fields {
        form: FORM.number(line),
        rd: RD.number(line) as usize,
        rs1: RS1.number(line) as usize,
        rs2: RS2.number(line) as usize,
        imm: IMM.number(line),
    }
}

const SHAPE: [u8; 37] = *b"hhhhhhhh hh hh hh hh hhhhhhhhhhhhhhhh";

// Whether every column of the line is what this project decodes.
pub(crate) fn judge(line: &[u8]) -> Verdict {
    if !has_shape(line, &SHAPE) {
        return Verdict::Disagrees;
    }
    let decoded = instruction_of(WORD.word(line)).map_or(Fields::default(), fields_of);
    if decoded == fields_at(line) {
        Verdict::Agrees
    } else {
        Verdict::Disagrees
    }
}
