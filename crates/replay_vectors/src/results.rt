// The list of results: a mark, an instruction word with its pc and operands, what it does by the manual, and by the scope paper.
ghost use Rattle.std.specs.Prelude.{◌≡◌, length};
ghost use Rattle.riscu.specs.Registers.{Registers};

use crate::columns::{Column, has_shape};
use crate::decodings::{Fields, fields_of, instruction_of};
use crate::tally::{Departure, Verdict};
use effects::effect::{Effect, effect_of};
use riscu::instruction::Instruction;
use values::{Slots, Value};

// The first column of a line is its mark.
const WORD: Column = Column { at: 2, digits: 8 };

const PC: Column = Column { at: 11, digits: 16 };

const RS1_VALUE: Column = Column { at: 28, digits: 16 };

const RS2_VALUE: Column = Column { at: 45, digits: 16 };

const MANUAL_RD_VALUE: Column = Column { at: 62, digits: 16 };

const MANUAL_NEXT: Column = Column { at: 79, digits: 16 };

const NUMBER: Column = Column { at: 96, digits: 2 };

const RD_VALUE: Column = Column { at: 99, digits: 16 };

const NEXT: Column = Column {
    at: 116,
    digits: 16,
};

const REGISTERS: usize = 32;

// The number of an instruction after which the program goes on.
const GOES_ON: u64 = 0;

// No instruction of the list reads or writes memory.
const NO_MEMORY: u64 = 0;

// What an instruction does, in the list's columns. Without a register to write the value is 0. With a number that ends the
// executor the value is the answer's, and there is no next pc.
#[derive(Clone, Copy, PartialEq)]
struct Step {
    number: u64,
    value: u64,
    next: u64,
}

impl Step {
    fn going_on(value: u64, next: u64) -> Step {
        Step {
            number: GOES_ON,
            value,
            next,
        }
    }
}

// An assignment has to be to the instruction's rd. x0 is never written, so that a jump with no assignment may only come from
// an instruction that has no rd, or x0 there. None for an effect that no line of the list has.
fn step_of(effect: Effect, rd: usize) -> Option<Step> {
    match effect {
        Effect::Assign {
            rd: assigned,
            value: Value::Concrete(value),
            next_pc,
        } if assigned == rd && rd != 0 => Some(Step::going_on(value, next_pc)),
        Effect::Jump { next_pc } if rd == 0 => Some(Step::going_on(0, next_pc)),
        Effect::End(outcome) => Some(Step {
            number: outcome.number(),
            value: outcome.value(),
            next: 0,
        }),
        _ => None,
    }
}

// Registers that an instruction does not name stay 0.
fn with_register(mut registers: [u64; 32], n: usize, value: u64) -> [u64; 32]
    ensures { 32 ≡ length result }
{
    if n < REGISTERS {
        registers[n] = value;
    }
    registers
}

// The line's instruction on registers that hold the line's operands.
fn effect_on(line: &[u8], instruction: Instruction, fields: Fields) -> Effect
    requires { Registers instruction }
{
    let registers = with_register([0; 32], fields.rs1, RS1_VALUE.number(line));
    let registers = with_register(registers, fields.rs2, RS2_VALUE.number(line));
    let registers = Slots {
        words: &registers,
        marks: &[1; 32],
    };
    effect_of(registers, &instruction, PC.number(line), NO_MEMORY)
}

// The departure that a line's mark names, in an instruction that can depart so.
fn departure(line: &[u8], instruction: Instruction) -> Verdict {
    match (line.first(), instruction) {
        (Some(b'L'), Instruction::Lui(_)) => Verdict::Departs(Departure::Lui),
        (Some(b'J'), Instruction::Jalr(_)) => Verdict::Departs(Departure::Jalr),
        (Some(b'Z'), Instruction::Divu(_) | Instruction::Remu(_)) => {
            Verdict::Departs(Departure::ZeroDivisor)
        }
        _ => Verdict::Disagrees,
    }
}

// A line with the mark of agreement has one answer by the manual and by the scope paper, and any other line two.
fn marked(line: &[u8], instruction: Instruction, ours: Step) -> Verdict {
    let manual = Step::going_on(MANUAL_RD_VALUE.number(line), MANUAL_NEXT.number(line));
    if manual != ours {
        return departure(line, instruction);
    }
    if line.first() == Some(&b'=') {
        Verdict::Agrees
    } else {
        Verdict::Disagrees
    }
}

const SHAPE: [u8; 132] =
    *b"? hhhhhhhh hhhhhhhhhhhhhhhh hhhhhhhhhhhhhhhh hhhhhhhhhhhhhhhh hhhhhhhhhhhhhhhh hhhhhhhhhhhhhhhh hh hhhhhhhhhhhhhhhh hhhhhhhhhhhhhhhh";

// The line's columns of the scope paper against what this project does.
pub(crate) fn judge(line: &[u8]) -> Verdict {
    if !has_shape(line, &SHAPE) {
        return Verdict::Disagrees;
    }
    let Some(instruction) = instruction_of(WORD.word(line)) else {
        return Verdict::Disagrees;
    };
    let fields = fields_of(instruction);
    let ours = Step {
        number: NUMBER.number(line),
        value: RD_VALUE.number(line),
        next: NEXT.number(line),
    };
    if step_of(effect_on(line, instruction, fields), fields.rd) == Some(ours) {
        marked(line, instruction, ours)
    } else {
        Verdict::Disagrees
    }
}
