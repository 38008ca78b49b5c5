// Theorems alone: a night's slices are one run.
#![tactic(auto)]
