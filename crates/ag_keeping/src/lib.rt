//! What a replica keeps on its disk, as one record, and what each of its writes makes of it.
#![tactic(auto)]

pub mod laws;
