// From a word to its instruction, by opcode, funct3 and funct7.
ghost use Rattle.std.specs.Prelude.{◌≡◌};
ghost use Rattle.riscu.specs.Formats.{r_type, i_type, s_type, b_type, u_type, j_type};
ghost use Rattle.riscu.specs.Formats.{funct3 as funct3_of};
ghost use Rattle.riscu.specs.Decoding.{decoded, decoded_op};

use crate::bits::bits;
use crate::immediate::{imm_b, imm_i, imm_j, imm_s, imm_u};
use crate::instruction::{BType, IType, Instruction, JType, RType, SType, UType};

fn funct3(word: u32) -> u32
    ensures { result ≡ funct3_of word }
{
    bits::<14, 12>(word)
}

fn r_type(word: u32) -> RType
    ensures { result ≡ r_type word }
{
    RType {
        rd: bits::<11, 7>(word) as usize,
        rs1: bits::<19, 15>(word) as usize,
        rs2: bits::<24, 20>(word) as usize,
    }
}

fn i_type(word: u32) -> IType
    ensures { result ≡ i_type word }
{
    IType {
        rd: bits::<11, 7>(word) as usize,
        rs1: bits::<19, 15>(word) as usize,
        imm: imm_i(word),
    }
}

fn s_type(word: u32) -> SType
    ensures { result ≡ s_type word }
{
    SType {
        rs1: bits::<19, 15>(word) as usize,
        rs2: bits::<24, 20>(word) as usize,
        imm: imm_s(word),
    }
}

fn b_type(word: u32) -> BType
    ensures { result ≡ b_type word }
{
    BType {
        rs1: bits::<19, 15>(word) as usize,
        rs2: bits::<24, 20>(word) as usize,
        imm: imm_b(word),
    }
}

fn u_type(word: u32) -> UType
    ensures { result ≡ u_type word }
{
    UType {
        rd: bits::<11, 7>(word) as usize,
        imm: imm_u(word),
    }
}

fn j_type(word: u32) -> JType
    ensures { result ≡ j_type word }
{
    JType {
        rd: bits::<11, 7>(word) as usize,
        imm: imm_j(word),
    }
}

// Opcode 0x33: register with register. funct7 says which group of operations it is, funct3 which of the group.
#[tactic(auto, unfolding(crate::specs::Decoding::decoded_op))]
fn decode_op(word: u32) -> Option<Instruction>
    ensures { result ≡ decoded_op word }
{
    let funct7 = bits::<31, 25>(word);
    let funct3 = funct3(word);
    match funct7 {
        0 => match funct3 {
            0 => Some(Instruction::Add(r_type(word))),
            3 => Some(Instruction::Sltu(r_type(word))),
            _ => None,
        },
        1 => match funct3 {
            0 => Some(Instruction::Mul(r_type(word))),
            5 => Some(Instruction::Divu(r_type(word))),
            7 => Some(Instruction::Remu(r_type(word))),
            _ => None,
        },
        0x20 => match funct3 {
            0 => Some(Instruction::Sub(r_type(word))),
            _ => None,
        },
        _ => None,
    }
}

// The instruction that a word encodes, or that it encodes none of the fourteen. Each arm tests its own funct3, so that
// it is one test of the word's bits.
#[tactic(auto, unfolding(crate::specs::Decoding::decoded))]
pub fn decode(raw: u32) -> Option<Instruction>
    ensures { result ≡ decoded raw }
{
    let opcode = bits::<6, 0>(raw);
    match opcode {
        0x37 => Some(Instruction::Lui(u_type(raw))),
        0x6F => Some(Instruction::Jal(j_type(raw))),
        0x67 => match funct3(raw) {
            0 => Some(Instruction::Jalr(i_type(raw))),
            _ => None,
        },
        0x63 => match funct3(raw) {
            0 => Some(Instruction::Beq(b_type(raw))),
            _ => None,
        },
        0x13 => match funct3(raw) {
            0 => Some(Instruction::Addi(i_type(raw))),
            _ => None,
        },
        0x03 => match funct3(raw) {
            3 => Some(Instruction::Ld(i_type(raw))),
            _ => None,
        },
        0x23 => match funct3(raw) {
            3 => Some(Instruction::Sd(s_type(raw))),
            _ => None,
        },
        0x33 => decode_op(raw),
        0x73 => match raw {
            0x73 => Some(Instruction::Ecall),
            _ => None,
        },
        _ => None,
    }
}
