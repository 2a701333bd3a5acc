// Rules: no code. Refusals 12 to 22 and the file that is opened, as definitions (specs/).
#![tactic(auto)]
