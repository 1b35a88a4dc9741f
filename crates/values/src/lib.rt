// Values, and how they are stored: a word and a mark beside it. And the bytes of a word. For the layers above.
#![tactic(auto)]

ghost use Rattle.std.specs.Prelude.{◌≡◌, ◌<◌, length};
ghost use Rattle.values.specs.Values.{value_at, byte_of, RegisterFile};

// What a register or a memory word holds.
#[derive(Clone, Copy, PartialEq)]
pub enum Value {
    Concrete(u64),
    // Nobody wrote it.
    Uninitialized,
}

// The value at place n of some words and their marks.
#[tactic(auto, unfolding(crate::specs::Values::value_at))]
pub fn value_at(words: &[u64], marks: &[u8], n: usize) -> Value
    requires n_in_words { n < length words.now }
    requires n_in_marks { n < length marks.now }
    ensures { result ≡ value_at words.now marks.now n }
{
    if marks[n] == 0 {
        Value::Uninitialized
    } else {
        Value::Concrete(words[n])
    }
}

// Byte k of a word, the lowest being byte 0.
pub fn byte_of(word: u64, k: u64) -> u8
    requires { k < 8 }
    ensures { result ≡ byte_of word k }
{
    ((word >> (8 * k)) % 256) as u8
}

// The words and marks of registers, and of what follows them.
#[derive(Clone, Copy)]
pub struct Slots<'a> {
    pub words: &'a [u64],
    pub marks: &'a [u8],
    ghost registers: { RegisterFile words.now marks.now },
}

impl<'a> Slots<'a> {
    // The value of register n.
    pub fn register(&self, n: usize) -> Value
        requires { n < 32 }
        ensures { result ≡ value_at self.now.words.now self.now.marks.now n }
    {
        value_at(self.words, self.marks, n)
    }
}
