// Demands: no code. The three demands over what the questions of `still` promise (specs/, proofs/).
#![tactic(auto)]
