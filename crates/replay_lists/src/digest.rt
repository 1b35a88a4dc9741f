// A digest of words and marks. Each number is put in by a step that can be undone, so that one change never goes unnoticed.
ghost use Rattle.std.specs.Prelude.{◌≡◌};
ghost use Rattle.replay_lists.specs.Digests.{put, put_all, digest_of};

// What stands in lent words and marks before the first call: no call leaves it so.
pub const JUNK: u64 = 0x6e75_7473;

// The same for marks, of which none is 7 in a row.
pub const JUNK_MARK: u8 = 7;

const START: u64 = 0x9e37_79b9_7f4a_7c15;

// By how many bits a step turns the digest to the left.
const TURN: u32 = 23;

const FACTOR: u64 = 33;

// Xor, a turn, and times 33.
#[tactic(auto, unfolding(crate::specs::Digests::put))]
fn with(digest: u64, number: u64) -> u64
    ensures { result ≡ put digest number }
{
    (digest ^ number).rotate_left(TURN).wrapping_mul(FACTOR)
}

fn with_words(before: u64, words: &[u64]) -> u64
    ensures { result ≡ put_all before words.now }
{
    words
        .iter()
        .fold(before, |digest, word| with(digest, *word))
}

// A digest with marks, or other bytes, after it.
pub fn with_marks(before: u64, marks: &[u8]) -> u64
    ensures { result ≡ put_all before marks.now }
{
    marks
        .iter()
        .fold(before, |digest, mark| with(digest, u64::from(*mark)))
}

// The digest of a row or a store.
pub fn digest_of(words: &[u64], marks: &[u8]) -> u64
    ensures { result ≡ digest_of words.now marks.now }
{
    with_marks(with_words(START, words), marks)
}
