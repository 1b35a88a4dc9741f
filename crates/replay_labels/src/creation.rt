// A new executor, made as a line says.
use crate::columns::{DIGEST, NUMBER, SIZES};
use checks::refusal::checked_number;
use replay_lists::columns::number_at;
use replay_lists::digest::digest_of;
use replay_lists::program::Program;
use replay_lists::sizes::sizes_at;

// The number of a new executor of the program, in what the line lends; none if there is less than that.
fn create(numbers: &[u64], program: &Program, words: &mut [u64], marks: &mut [u8]) -> Option<u64> {
    let sizes = sizes_at(numbers, SIZES, words, marks)?;
    let checked = executor::new_executor(
        &mut words[..sizes.words],
        &mut marks[..sizes.marks],
        sizes.memory,
        sizes.log,
        program.lent(),
    );
    Some(checked_number(checked))
}

// Whether the creation of the line has the line's number and leaves what the line says.
pub(crate) fn replay_creation(
    numbers: &[u64],
    program: &Program,
    words: &mut [u64],
    marks: &mut [u8],
) -> bool {
    create(numbers, program, words, marks) == Some(number_at(numbers, NUMBER))
        && digest_of(words, marks) == number_at(numbers, DIGEST)
}
