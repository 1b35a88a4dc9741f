// Texts written into a lent output, one after the other. For the layers above.
#![tactic(auto)]

ghost use Rattle.std.specs.Prelude.{◌≡◌, ◌+◌, ◌≤◌, length};
ghost use Rattle.writing.specs.Outputs.{Put};

// A lent output, and how many of its bytes are written.
#[derive(Drop)]
pub struct Output<'a> {
    pub bytes: &'a mut [u8],
    pub written: usize,
}

impl<'a> Output<'a> {
    // With nothing written yet.
    pub fn new(bytes: &'a mut [u8]) -> Output<'a>
        ensures same { result.bytes.ghost_name ≡ bytes.entry.ghost_name }
        ensures bytes { result.bytes.now ≡ bytes.old }
        ensures nothing { result.written ≡ 0 }
    {
        Output { bytes, written: 0 }
    }

    // Writes a text after what is written.
    #[tactic(auto, using(crate::proofs::Writing::wrote_part))]
    pub fn put(&mut self, text: &[u8])
        requires { self.old.written + length text.now ≤ length self.old.bytes.now }
        ensures { Put self.old text.now self.new }
    {
        let end = self.written + text.len();
        self.bytes[self.written..end].copy_from_slice(text);
        self.written = end;
    }
}
