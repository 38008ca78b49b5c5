// Theorems alone: 01's table of replies row by row, what a public run leaves, and that any two results are equal.
#![tactic(auto)]
