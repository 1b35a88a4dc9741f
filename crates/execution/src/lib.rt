// An instruction carried out on a row, up to its system call.
#![tactic(auto)]

ghost use Rattle.std.specs.Prelude.{◌≡◌};
ghost use Rattle.riscu.specs.Registers.{Registers};
ghost use Rattle.effects.specs.Reach.{InReach};
ghost use Rattle.rows.specs.Rows.{memory_words};
ghost use Rattle.rows.specs.Lent.{lent, SameSlices};
ghost use Rattle.execution.specs.Execution.{applied, next_of, effect_in};

use answers::outcome::Outcome;
use effects::effect::{Effect, effect_of};
use riscu::instruction::Instruction;
use rows::row::{PC, RowMut};

// What comes after an instruction: the next one, a system call, or the executor's end.
#[derive(Clone, Copy)]
pub enum Next {
    Instruction,
    Call,
    End(Outcome),
}

#[tactic(auto, unfolding(crate::specs::Execution::applied))]
fn apply(row: &mut RowMut, effect: Effect) -> Next
    requires { InReach (memory_words (lent row.old)) effect }
    ensures value { result ≡ next_of effect }
    ensures row_after { lent row.new ≡ applied effect (lent row.old) }
    ensures same_slices { SameSlices row.old row.new }
{
    match effect {
        Effect::Assign { rd, value, next_pc } => {
            row.write_slot(rd, value);
            row.words[PC] = next_pc;
            Next::Instruction
        }
        Effect::Load { rd, word, next_pc } => {
            let value = row.view().read_memory(word);
            row.write_slot(rd, value);
            row.words[PC] = next_pc;
            Next::Instruction
        }
        Effect::Store {
            word,
            value,
            next_pc,
        } => {
            row.write_memory(word, value);
            row.words[PC] = next_pc;
            Next::Instruction
        }
        Effect::Jump { next_pc } => {
            row.words[PC] = next_pc;
            Next::Instruction
        }
        Effect::Call => Next::Call,
        Effect::End(outcome) => Next::End(outcome),
    }
}

// Carries out an instruction, but for a system call, which is left to the layer above.
#[tactic(auto, unfolding(crate::specs::Execution::effect_in), using(effects::proofs::Reach::in_reach))]
pub fn execute(row: &mut RowMut, instruction: &Instruction) -> Next
    requires { Registers instruction.now }
    ensures value { result ≡ next_of (effect_in instruction.now (lent row.old)) }
    ensures row_after { lent row.new ≡ applied (effect_in instruction.now (lent row.old)) (lent row.old) }
    ensures same_slices { SameSlices row.old row.new }
{
    let view = row.view();
    let memory = view.memory_words() as u64;
    let effect = effect_of(view.slots(), instruction, row.words[PC], memory);
    apply(row, effect)
}
