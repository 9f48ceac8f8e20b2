//! Which event lines are built so far. Definitions alone.
#![tactic(auto)]
