//! Moves of the register.
use crate::sets::{said_set, set_of};
use crate::words::{next_number, next_small, next_word};
use ag_cluster::members::has_member;
use ag_cluster::{ClusterFault, add_sync, automatic, forced, planned, remove_sync, resume};
use ag_model::config::Register;
use std::alloc::{AllocError, Global};
use std::str::SplitWhitespace;

/// A register as text: its term, its primary, and the synchronised and the suspended replicas.
fn said(alloc: Global, r: &Register) -> Result<String, AllocError> {
    let synced = said_set(alloc, r.synced)?;
    let suspended = said_set(alloc, r.suspended)?;
    format!(in alloc; "{} {} {synced} {suspended}", r.term, r.primary)
}

/// What a move gave, and the register then.
fn told<T: std::fmt::Debug>(alloc: Global, gave: &T, r: &Register) -> Result<String, AllocError> {
    let register = said(alloc, r)?;
    format!(in alloc; "{gave:?} {register}")
}

/// Puts a replica into the synchronised set, or takes it out.
fn synced(r: &mut Register, name: &str, term: u64, n: u8) -> Option<Result<(), ClusterFault>> {
    if n >= 16 {
        return None;
    }
    match name {
        "add_sync" => Some(add_sync(r, term, n)),
        _ => Some(remove_sync(r, term, n)),
    }
}

/// A failover to a synchronised replica, by plan or not.
fn moved(r: &mut Register, name: &str, term: u64, n: u8) -> Option<Result<u64, ClusterFault>> {
    if n >= 16 || r.term >= 1 << 63 {
        return None;
    }
    match name {
        "planned" => Some(planned(r, term, n)),
        _ => Some(automatic(r, term, n)),
    }
}

/// A failover by force, among so many replicas.
fn moved_by_force(r: &mut Register, n: u8, replicas: u8) -> Option<u64> {
    if n >= 16 || replicas > 16 || r.term >= 1 << 63 {
        return None;
    }
    Some(forced(r, n, replicas))
}

/// Resumes a replica, if there may be such a one.
fn resumed(r: &mut Register, n: u8) -> Option<()> {
    if n >= 16 {
        return None;
    }
    resume(r, n);
    Some(())
}

/// Whether the synchronised set has a replica, if there may be such a one.
fn is_synced(r: &Register, n: u8) -> Option<bool> {
    if n < 16 {
        Some(has_member(r.synced, n))
    } else {
        None
    }
}

/// What a step on the register gave, if it is one.
pub fn step(
    alloc: Global,
    r: &mut Register,
    name: &str,
    words: &mut SplitWhitespace<'_>,
) -> Result<Option<String>, AllocError> {
    let text = match name {
        "register" => {
            *r = Register {
                term: next_number(words),
                primary: next_small(words),
                synced: set_of(next_word(words)),
                suspended: set_of(next_word(words)),
            };
            said(alloc, r)?
        }
        "add_sync" | "remove_sync" => {
            let gave = synced(r, name, next_number(words), next_small(words));
            told(alloc, &gave, r)?
        }
        "planned" | "automatic" => {
            let gave = moved(r, name, next_number(words), next_small(words));
            told(alloc, &gave, r)?
        }
        "forced" => {
            let gave = moved_by_force(r, next_small(words), next_small(words));
            told(alloc, &gave, r)?
        }
        "resume" => {
            let gave = resumed(r, next_small(words));
            told(alloc, &gave, r)?
        }
        "synced" => format!(in alloc; "{:?}", is_synced(r, next_small(words)))?,
        _ => return Ok(None),
    };
    Ok(Some(text))
}
