// Document 01's proved cases, P1 to P12, and its whole case, as one table in specs/ and one claim in proofs/: no code.
#![tactic(auto)]
