// Questions: no code. Document 01's questions of an accepted file, as definitions (specs/).
#![tactic(auto)]
