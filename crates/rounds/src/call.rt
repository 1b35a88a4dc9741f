// What a search goes by.
use answers::finding::Finding;
use loader::Program;
use options::RaritySimulationOptions;

// A search call but for its store: what is asked, of which program, and the words that are drawn.
#[derive(Clone, Copy)]
pub struct Call<'a> {
    pub options: RaritySimulationOptions,
    pub program: Program<'a>,
    pub tape: &'a [u64],
}

// From what a round starts: so many rows kept at the front of the store, and so many tape words used.
#[derive(Clone, Copy)]
pub struct Start {
    pub kept: usize,
    pub used: usize,
}

// What runs or a search come to, and how many tape words are used.
#[derive(Clone, Copy)]
pub struct Ended {
    pub finding: Finding,
    pub used: usize,
}
