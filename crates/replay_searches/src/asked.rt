// The options of a line.
use options::RaritySimulationOptions;
use replay_lists::answer::mean_at;
use replay_lists::columns::number_at;
use replay_lists::float::float_of;

pub(crate) const STATES: usize = 0;

const STEP: usize = 1;

const SELECTION: usize = 2;

const ROUNDS: usize = 3;

const RATIO: usize = 4;

const MEAN: usize = 5;

const MEMORY: usize = 6;

// Steps, selection and rounds, and no other numbers of a line, have 32 bits.
fn count_at(numbers: &[u64], at: usize) -> Option<u32> {
    u32::try_from(number_at(numbers, at)).ok()
}

// None if there are no such options.
pub(crate) fn options_of(numbers: &[u64]) -> Option<RaritySimulationOptions> {
    Some(RaritySimulationOptions {
        memory_size: number_at(numbers, MEMORY),
        amount_of_states: number_at(numbers, STATES),
        step_size: count_at(numbers, STEP)?,
        selection: count_at(numbers, SELECTION)?,
        iterations: count_at(numbers, ROUNDS)?,
        copy_init_ratio: float_of(number_at(numbers, RATIO)),
        mean: mean_at(numbers, MEAN)?,
    })
}
