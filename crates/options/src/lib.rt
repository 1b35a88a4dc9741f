// What a search is asked to do (the Rust's RaritySimulationOptions), the defaults, and the numbers of the means. For every layer that reads options.
#![tactic(auto)]

ghost use Rattle.std.specs.Prelude.{◌≡◌, ◌≤◌};
ghost use Rattle.options.specs.Defaults.{default_options};
ghost use Rattle.options.specs.Means.{mean_number, mean_numbered};

use means::MeanType;

// The options of a search.
#[derive(Clone, Copy)]
pub struct RaritySimulationOptions {
    // The size of the machine's memory in bytes.
    pub memory_size: u64,
    // The number of states to pursue.
    pub amount_of_states: u64,
    // How many instructions each state runs in a round.
    pub step_size: u32,
    // How many of the rarest states are kept at the end of a round.
    pub selection: u32,
    // The number of rounds.
    pub iterations: u32,
    // The part of the missing states that is copied from kept ones, the others being new; from 0 to 1.
    pub copy_init_ratio: f64,
    // The mean by which rarity is scored.
    pub mean: MeanType,
}

// The default of memory_size.
pub const MEMORY_SIZE: u64 = 1_048_576;

// The default of amount_of_states.
pub const AMOUNT_OF_STATES: u64 = 400;

// The default of step_size.
pub const STEP_SIZE: u32 = 1000;

// The default of selection.
pub const SELECTION: u32 = 50;

// The default of iterations.
pub const ITERATIONS: u32 = 20;

// The default of copy_init_ratio, which is 0.6, by its bits.
pub const COPY_RATIO_BITS: u64 = 0x3fe3_3333_3333_3333;

// The default of mean.
pub const MEAN: MeanType = MeanType::Harmonic;

// The default options: those that the Rust's command line starts from, but for the number of states.
impl Default for RaritySimulationOptions {
    ghost is_default = { λ options. options ≡ default_options };

    #[tactic(auto, unfolding(crate::specs::Defaults::default_options))]
    fn default() -> RaritySimulationOptions {
        RaritySimulationOptions {
            memory_size: MEMORY_SIZE,
            amount_of_states: AMOUNT_OF_STATES,
            step_size: STEP_SIZE,
            selection: SELECTION,
            iterations: ITERATIONS,
            copy_init_ratio: f64::from_bits(COPY_RATIO_BITS),
            mean: MEAN,
        }
    }
}

// The number of a mean.
pub fn mean_number(mean: MeanType) -> u64
    ensures value { result ≡ mean_number mean }
    ensures upper_bound { result ≤ 1 }
{
    mean as u64
}

// The mean of a number, which is at most 1.
pub fn mean_numbered(number: u64) -> MeanType
    ensures { result ≡ mean_numbered number }
{
    match number {
        0 => MeanType::Arithmetic,
        _ => MeanType::Harmonic,
    }
}
