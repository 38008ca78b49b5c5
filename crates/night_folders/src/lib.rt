// The model of the folders that a night works in, and its theorems; no code. specs/ has the model, proofs/Commit.antt the theorems, proofs/Holes.antt
// what goes wrong where a rule is left out.
#![tactic(auto)]
