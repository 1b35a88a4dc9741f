// Laws of the machine that no function of it needs: what every instruction and run keeps. See proofs/.
#![tactic(auto)]
