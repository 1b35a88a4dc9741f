// The rules of the instructions, by the values of their operands.
ghost use Rattle.std.specs.Prelude.{◌≡◌};
ghost use Rattle.effects.specs.Effects.{not_supported, missing_operand, binary_op, is_zero, divu_remu};
ghost use Rattle.effects.specs.Effects.{following as following_of, assign as assign_of, valid_address, invalid_address, load_from, store_to};
ghost use Rattle.effects.specs.Effects.{lui as lui_of, beq as beq_of, jal as jal_of, jalr as jalr_of, ld as ld_of, sd as sd_of};

use crate::arithmetic::{Op, operate};
use crate::effect::Effect;
use answers::bug::{Bug, UninitializedMemoryAccessReason};
use answers::error::{ExecutorError, NotSupportedReason};
use answers::outcome::Outcome;
use riscu::instruction::{BType, INSTRUCTION_SIZE};
use values::Value;

// The pc of the instruction that follows.
fn following(pc: u64) -> u64
    ensures { result ≡ following_of pc }
{
    pc.wrapping_add(INSTRUCTION_SIZE)
}

fn missing_operand() -> Effect
    ensures { result ≡ missing_operand }
{
    Effect::End(Outcome::Found(Bug::AccessToUninitializedMemory(
        UninitializedMemoryAccessReason::InstructionWithUninitializedOperand,
    )))
}

fn not_supported(reason: NotSupportedReason) -> Effect
    ensures { result ≡ not_supported reason }
{
    Effect::End(Outcome::Failed(ExecutorError::NotSupported(reason)))
}

// x0 is never written.
#[tactic(auto, unfolding(crate::specs::Effects::assign))]
fn assign_rd(rd: usize, value: Value, next_pc: u64) -> Effect
    ensures { result ≡ assign_of rd value next_pc }
{
    if rd == 0 {
        Effect::Jump { next_pc }
    } else {
        Effect::Assign { rd, value, next_pc }
    }
}

pub(crate) fn lui(rd: usize, imm: u64, pc: u64) -> Effect
    ensures { result ≡ lui_of rd imm pc }
{
    assign_rd(rd, Value::Concrete(imm), following(pc))
}

#[tactic(auto, unfolding(crate::specs::Effects::binary_op))]
pub(crate) fn binary_op(op: Op, rd: usize, pc: u64, a: Value, b: Value) -> Effect
    ensures { result ≡ binary_op op rd pc a b }
{
    let Value::Concrete(x) = a else {
        return missing_operand();
    };
    let Value::Concrete(y) = b else {
        return missing_operand();
    };
    assign_rd(rd, Value::Concrete(operate(op, x, y)), following(pc))
}

fn is_zero(v: Value) -> bool
    ensures { result ≡ is_zero v }
{
    match v {
        Value::Concrete(x) => x == 0,
        Value::Uninitialized => false,
    }
}

#[tactic(auto, unfolding(crate::specs::Effects::divu_remu))]
pub(crate) fn divu_remu(op: Op, rd: usize, pc: u64, a: Value, b: Value) -> Effect
    ensures { result ≡ divu_remu op rd pc a b }
{
    if is_zero(b) {
        Effect::End(Outcome::Found(Bug::DivisionByZero))
    } else {
        binary_op(op, rd, pc, a, b)
    }
}

// The immediate is read only where the branch is taken: the compiler then makes a branch of it, and the next fetch need
// not wait for the comparison.
#[tactic(auto, unfolding(crate::specs::Effects::beq))]
pub(crate) fn beq(t: &BType, pc: u64, a: Value, b: Value) -> Effect
    ensures { result ≡ beq_of t.now.imm pc a b }
{
    let Value::Concrete(x) = a else {
        return missing_operand();
    };
    let Value::Concrete(y) = b else {
        return missing_operand();
    };
    if x == y {
        Effect::Jump {
            next_pc: pc.wrapping_add(t.imm),
        }
    } else {
        Effect::Jump {
            next_pc: following(pc),
        }
    }
}

pub(crate) fn jal(rd: usize, imm: u64, pc: u64) -> Effect
    ensures { result ≡ jal_of rd imm pc }
{
    assign_rd(rd, Value::Concrete(following(pc)), pc.wrapping_add(imm))
}

#[tactic(auto, unfolding(crate::specs::Effects::jalr))]
pub(crate) fn jalr(rd: usize, imm: u64, pc: u64, a: Value) -> Effect
    ensures { result ≡ jalr_of rd imm pc a }
{
    let Value::Concrete(base) = a else {
        return not_supported(NotSupportedReason::JalrUninitializedBase);
    };
    assign_rd(rd, Value::Concrete(following(pc)), base.wrapping_add(imm))
}

// Whether an address names a word of a memory of `memory` words.
#[tactic(auto, unfolding(crate::specs::Effects::valid_address))]
fn is_valid_memory_address(address: u64, memory: u64) -> bool
    ensures { result ≡ valid_address address memory }
{
    address % 8 == 0 && address / 8 < memory
}

#[tactic(auto, unfolding(crate::specs::Effects::invalid_address))]
fn invalid_memory_address(address: u64) -> Effect
    ensures { result ≡ invalid_address address }
{
    if address % 8 == 0 {
        Effect::End(Outcome::Found(Bug::AccessToOutOfRangeAddress))
    } else {
        Effect::End(Outcome::Found(Bug::AccessToUnalignedAddress(address)))
    }
}

#[tactic(auto, unfolding(crate::specs::Effects::load_from))]
fn load_from(address: u64, rd: usize, next_pc: u64, memory: u64) -> Effect
    ensures { result ≡ load_from address rd next_pc memory }
{
    if is_valid_memory_address(address, memory) {
        if rd == 0 {
            Effect::Jump { next_pc }
        } else {
            Effect::Load {
                rd,
                word: (address / 8) as usize,
                next_pc,
            }
        }
    } else {
        invalid_memory_address(address)
    }
}

#[tactic(auto, unfolding(crate::specs::Effects::ld))]
pub(crate) fn ld(rd: usize, imm: u64, pc: u64, a: Value, memory: u64) -> Effect
    ensures { result ≡ ld_of rd imm pc a memory }
{
    let Value::Concrete(base) = a else {
        return not_supported(NotSupportedReason::LdUninitializedBase);
    };
    load_from(base.wrapping_add(imm), rd, following(pc), memory)
}

#[tactic(auto, unfolding(crate::specs::Effects::store_to))]
fn store_to(address: u64, value: Value, next_pc: u64, memory: u64) -> Effect
    ensures { result ≡ store_to address value next_pc memory }
{
    if is_valid_memory_address(address, memory) {
        Effect::Store {
            word: (address / 8) as usize,
            value,
            next_pc,
        }
    } else {
        invalid_memory_address(address)
    }
}

#[tactic(auto, unfolding(crate::specs::Effects::sd))]
pub(crate) fn sd(imm: u64, pc: u64, a: Value, value: Value, memory: u64) -> Effect
    ensures { result ≡ sd_of imm pc a value memory }
{
    let Value::Concrete(base) = a else {
        return not_supported(NotSupportedReason::SdUninitializedBase);
    };
    store_to(base.wrapping_add(imm), value, following(pc), memory)
}
