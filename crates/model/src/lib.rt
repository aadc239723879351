// What binding a set means, as definitions (specs/) and laws (proofs/). It has no code.
#![tactic(auto)]
