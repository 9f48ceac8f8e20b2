//! The rules of an availability group: what each event is answered, what it changes, and what every run has.
#![tactic(auto)]
