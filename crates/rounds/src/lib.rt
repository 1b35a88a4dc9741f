// A search call, a round's start and a search's end by value, beside the definitions of a search's rounds in specs/ and the proof of demand 3 in proofs/.
#![tactic(auto)]

pub mod call;
