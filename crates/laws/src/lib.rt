// Laws alone: tests, picks by a test, options and lists, as several crates use them.
#![tactic(auto)]
