// Theorems alone: a line read back, a whole listing assembled again, and when a text is refused.
#![tactic(auto)]
