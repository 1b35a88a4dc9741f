// The tape of a sheet: its bytes as words.
ghost use Rattle.std.specs.Prelude.{◌≡◌, ◌*◌, ◌≤◌, length};
ghost use Rattle.sheet.specs.Sheets.{words_in};

use loader::word_at;

// Reads so many words, as the lent tape is long, from the front of some bytes, little-endian. For the crate report, which has it from
// `parse` that they lie within the sheet.
#[tactic(auto, unfolding(crate::specs::Sheets::words_in))]
pub fn read_words(bytes: &[u8], tape: &mut [u64])
    requires { 8 * length tape.old ≤ length bytes.now }
    ensures { tape.new ≡ words_in (length tape.old) bytes.now }
{
    for (i, word) in tape.iter_mut().enumerate() {
        *word = word_at(bytes, 8 * i);
    }
}
