// Definitions and theorems alone: two runs as one.
#![tactic(auto)]
