// Words that were decoded before, with their instructions: a table that whoever runs a program lends to the run, so that it outlives a
// halt. An instruction depends on its word alone, so where a program changes its code, another word is met, and nothing has to be
// told of its stores.
#![tactic(auto)]

ghost use Rattle.std.specs.Prelude.{◌≡◌, Some};
ghost use Rattle.std.specs.Option.{option_copied};
ghost use Rattle.riscu.specs.Decoding.{decoded};
ghost use Rattle.riscu.specs.Registers.{Registers, RegistersIn};

use riscu::decode::decode;
use riscu::instruction::{INSTRUCTION_SIZE, Instruction};

// There is room for more than the loops of a label program have.
const ENTRIES: usize = 64;

const ECALL: u32 = 0x73;

// A word and what it decodes to.
#[derive(Clone, Copy)]
struct Entry {
    word: u32,
    instruction: Instruction,
    ghost decoding: { Some instruction ≡ decoded word },
}

impl Entry {
    // What its word decodes to.
    #[tactic(auto, using(riscu::proofs::Registers::decoded_registers))]
    fn instruction(&self) -> &Instruction
        ensures value { Some result.now ≡ decoded self.now.word }
        ensures registers { Registers result.now }
    {
        &self.instruction
    }
}

// An entry for each place of an instruction, modulo their number.
#[derive(Clone, Copy)]
pub struct Known {
    entries: [Entry; ENTRIES],
}

impl Known {
    // Nothing is known but ecall.
    #[tactic(auto, unfolding(riscu::specs::Decoding::decoded))]
    pub fn new() -> Known {
        let entry = Entry {
            word: ECALL,
            instruction: Instruction::Ecall,
        };
        Known {
            entries: [entry; ENTRIES],
        }
    }

    // What a word that was fetched at pc decodes to: by the table, or anew. It is lent and not copied out, so that what only a
    // taken branch wants is read only there.
    pub fn decode(&mut self, pc: u64, word: u32) -> Option<&Instruction>
        ensures value { option_copied result ≡ decoded word }
        ensures registers { RegistersIn (option_copied result) }
    {
        let at = (pc / INSTRUCTION_SIZE) as usize % ENTRIES;
        if self.entries[at].word != word {
            let instruction = decode(word)?;
            self.entries[at] = Entry { word, instruction };
        }
        Some(self.entries[at].instruction())
    }
}
