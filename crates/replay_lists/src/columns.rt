// The numbers of a line by their columns.
ghost use Rattle.std.specs.Prelude.{◌≡◌, ◌<◌, ◌≤◌, length, IfSome};
ghost use Rattle.replay_lists.specs.Columns.{number_at, length_at, length_within, words_for, bytes_at};

pub use values::byte_of;

// The most bytes of code, and of data, that a line has.
pub const MOST_BYTES: usize = 512;

pub const WORD_BYTES: usize = 8;

// The number in a column; 0 past the end.
pub fn number_at(numbers: &[u64], at: usize) -> u64
    ensures { result ≡ number_at numbers.now at }
{
    numbers.get(at).copied().unwrap_or(0)
}

// The length in a column. One above the most is cut down to it.
#[tactic(auto, unfolding(crate::specs::Columns::cut_to))]
pub fn length_at(numbers: &[u64], at: usize, most: usize) -> usize
    ensures upper_bound { result ≤ most }
    ensures value { result ≡ length_at numbers.now at most }
{
    let length = number_at(numbers, at);
    if length <= most as u64 {
        length as usize
    } else {
        most
    }
}

// The length in a column, if it is of at most so much.
#[tactic(auto, unfolding(crate::specs::Columns::length_within))]
pub fn length_within(numbers: &[u64], at: usize, most: usize) -> Option<usize>
    ensures value { result ≡ length_within numbers.now at most }
    ensures within { IfSome result (λ n. n ≤ most) }
    ensures as_it_stands { IfSome result (λ n. n ≡ number_at numbers.now at) }
{
    let length = number_at(numbers, at) as usize;
    if length <= most { Some(length) } else { None }
}

// How many words so many bytes take.
pub fn words_of(bytes: usize) -> usize
    requires { bytes ≤ 512 }
    ensures upper_bound { result ≤ 64 }
    ensures value { result ≡ words_for bytes }
{
    bytes.div_ceil(WORD_BYTES)
}

// The bytes of the words in the columns from this one on.
#[tactic(auto, unfolding(crate::specs::Columns::bytes_at))]
pub fn bytes_at(numbers: &[u64], at: usize) -> [u8; MOST_BYTES]
    requires { at ≤ 1000 }
    ensures count { 512 ≡ length result }
    ensures value { result ≡ bytes_at 512 numbers.now at }
{
    let mut bytes = [0; MOST_BYTES];
    for i in 0..MOST_BYTES {
        bytes[i] = byte_of(
            number_at(numbers, at + i / WORD_BYTES),
            (i % WORD_BYTES) as u64,
        );
    }
    bytes
}
