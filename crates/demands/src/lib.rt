// The three demands, as theorems over histories of calls: specs/ and proofs/. There is nothing to run here.
#![tactic(auto)]
