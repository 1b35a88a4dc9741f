// Laws of choices, lists and numbers that know nothing of the search. See proofs/.
#![tactic(auto)]
