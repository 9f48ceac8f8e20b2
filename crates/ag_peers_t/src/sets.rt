//! Sets of replicas as words, with commas between the replicas, and as text.
use crate::words::small;
use ag_cluster::members::{has_member, with_member};
use std::alloc::{AllocError, Global};

/// The set of the replicas that a word lists, as far as they can be in one.
pub fn set_of(word: &str) -> u16 {
    let mut set = 0;
    for replica in word.split(',') {
        let replica = small(replica);
        if replica < 16 {
            set = with_member(set, replica);
        }
    }
    set
}

/// The replicas of a set.
pub fn said_set(alloc: Global, set: u16) -> Result<String, AllocError> {
    let mut replicas = Vec::new(alloc);
    for replica in 0..16u8 {
        if has_member(set, replica) {
            replicas.push(replica)?;
        }
    }
    format!(in alloc; "{replicas:?}")
}
