//! Worked examples of the rules, each answer found by computing.
#![tactic(auto)]
