// Theorems alone: the ways that a C run can end, what the C calls leave, and that any two results are equal.
#![tactic(auto)]
