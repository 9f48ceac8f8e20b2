//! What a replica is told, as text.
use ag_acts::act::{Act, Pairs, TransactAct};
use ag_acts::told::Told;
use ag_model::event::Who;
use std::alloc::{AllocError, Global};

/// The word that names a replica.
fn who_text(who: Who) -> &'static str {
    match who {
        Who::Primary => "@",
        Who::Letter(0) => "A",
        Who::Letter(1) => "B",
        Who::Letter(_) => "another",
    }
}

/// Pairs, each with the first byte of its value.
fn pairs_text(alloc: Global, pairs: &Pairs<'_>) -> Result<String, AllocError> {
    let mut text = String::from_str(alloc, "Set")?;
    for pair in pairs.list().as_slice() {
        write!(text, " {}={}", pair.key, pair.value.bytes[0])?;
    }
    Ok(text)
}

/// An act of a transaction.
fn transact_text(alloc: Global, act: &TransactAct<'_>) -> Result<String, AllocError> {
    match act {
        TransactAct::Begin => String::from_str(alloc, "Begin"),
        TransactAct::Get { txn, key } => format!(in alloc; "Get {txn} {key}"),
        TransactAct::Put { txn, key, value } => {
            format!(in alloc; "Put {txn} {key} {}", value.bytes[0])
        }
        TransactAct::Del { txn, key } => format!(in alloc; "Del {txn} {key}"),
        TransactAct::Commit { txn } => format!(in alloc; "Commit {txn}"),
        TransactAct::Rollback { txn } => format!(in alloc; "Rollback {txn}"),
        TransactAct::Set { pairs } => pairs_text(alloc, pairs),
    }
}

/// An act, by its family.
fn act_text(alloc: Global, act: &Act<'_>) -> Result<String, AllocError> {
    match act {
        Act::Transact(act) => {
            let text = transact_text(alloc, act)?;
            format!(in alloc; "transact {text}")
        }
        Act::Lead(act) => format!(in alloc; "lead {act:?}"),
        Act::Follow(act) => format!(in alloc; "follow {act:?}"),
        Act::Session(act) => format!(in alloc; "session {act:?}"),
        Act::Look(act) => format!(in alloc; "look {act:?}"),
        Act::Disk(act) => format!(in alloc; "disk {act:?}"),
        Act::Member(act) => format!(in alloc; "member {act:?}"),
    }
}

/// The replica, what it does, and the suffix.
pub fn told_text(alloc: Global, told: &Told<'_>) -> Result<String, AllocError> {
    let who = who_text(told.node);
    let act = act_text(alloc, &told.act)?;
    format!(in alloc; "{who}, {act}, {:?}", told.suffix)
}
