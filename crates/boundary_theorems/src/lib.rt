// Definitions and laws alone: what a run did, boundary by boundary, and what it keeps.
#![tactic(auto)]
