// Faults: no code. What refusals 12 to 20, 29 and 30 mean on a file, and in which order they are given (specs/); that judging gives the first one (proofs/).
#![tactic(auto)]
