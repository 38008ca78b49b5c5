// Definitions and laws alone: what a run's wake log tells, and that watching only adds its own stop.
#![tactic(auto)]
