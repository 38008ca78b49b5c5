// Theorems alone: by the names that a night commits along, a recovery finds the places of that night.
#![tactic(auto)]
