// What the papers ask to be proved of `bind_of` and `query_of`: statements in specs/, theorems in proofs/, and no code.
#![tactic(auto)]
