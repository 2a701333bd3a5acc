// The bench sheet: no code. Its starred lines, proved from the definitions (specs/Sheet.antt, proofs/Holds.antt).
#![tactic(auto)]
