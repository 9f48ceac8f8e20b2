//! What is known of the block ends and the term starts of any log, said once.
#![tactic(auto)]
