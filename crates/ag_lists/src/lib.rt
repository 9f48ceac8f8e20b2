//! Lemmas on lists, on tests and on results, for the proofs of the other crates. No code.
#![tactic(auto)]
