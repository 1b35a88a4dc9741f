// The means by which a state's rarity is scored (the Rust's score_with_mean), taken in one counter at a time.
// For the layers above; the definitions are in specs/, the error bound and the ruler in proofs/.
#![tactic(auto)]

ghost use Rattle.std.specs.Prelude.{◌≡◌, [], ◌≤◌, ◌-◌};
ghost use Rattle.means.specs.Tallies.{tally, with_counter, mean_of, Within, most_counters};

// The two means, each with its number.
#[derive(Clone, Copy)]
pub enum MeanType {
    Arithmetic = 0,
    Harmonic = 1,
}

// The sum of the reciprocals of some counters, in list order, their sum, and how many they are.
#[derive(Clone, Copy)]
pub struct Tally {
    pub reciprocals: f64,
    pub sum: u64,
    pub n: u64,
}

impl Tally {
    // Of no counters.
    pub fn new() -> Tally
        ensures { result ≡ tally [] }
    {
        Tally {
            reciprocals: 0.0,
            sum: 0,
            n: 0,
        }
    }

    // With one counter more.
    pub fn add(self, counter: u64) -> Tally
        requires within { Within (most_counters - 1) self }
        requires counter_bound { counter ≤ 32768 }
        ensures { result ≡ with_counter self counter }
    {
        Tally {
            reciprocals: self.reciprocals + 1.0 / (counter as f64),
            sum: self.sum + counter,
            n: self.n + 1,
        }
    }

    // Their mean: at least one was taken in.
    #[tactic(auto, unfolding(crate::specs::Tallies::mean_of))]
    pub fn mean(self, mean: MeanType) -> f64
        requires { Within most_counters self }
        ensures { result ≡ mean_of mean self }
    {
        match mean {
            MeanType::Arithmetic => (self.sum as f64) / (self.n as f64),
            MeanType::Harmonic => (self.n as f64) / self.reciprocals,
        }
    }
}
