//! Refusals as text.
ghost use Rattle.std.specs.Prelude.{◌≡◌, ◌++◌, OnOk};
ghost use Rattle.ag_transcript.specs.Refusals.{refusal_text};

use crate::text::{put_named, put_node, put_nodes, put_text, put_two};
use ag_model::answer::Refusal;
use ag_model::value::NoMemory;

/// Adds what stands behind `no ` at the end.
pub(crate) fn put_refusal(refusal: Refusal, out: &mut Vec<u8>) -> Result<(), NoMemory>
    ensures { OnOk result (out.new.items ≡ out.old.items ++ refusal_text refusal) }
{
    match refusal {
        Refusal::Down { node } => put_node(b"down ", node, out)?,
        Refusal::NotPrimary { node, primary } => put_nodes(b"not_primary ", node, primary, out)?,
        Refusal::NotSecondary { node } => put_node(b"not_secondary ", node, out)?,
        Refusal::NotReadable { state } => put_named(b"not_readable ", u64::from(state), out)?,
        Refusal::WrongState { state } => put_named(b"wrong_state ", u64::from(state), out)?,
        Refusal::CutOff { node } => put_node(b"cut_off ", node, out)?,
        Refusal::Suspended { node } => put_node(b"suspended ", node, out)?,
        Refusal::NotConnected { node } => put_node(b"not_connected ", node, out)?,
        Refusal::NoTxn { node, txn } => {
            put_node(b"no_txn ", node, out)?;
            put_named(b" ", txn, out)?;
        }
        Refusal::NoMessage { node, to } => put_nodes(b"no_message ", node, to, out)?,
        Refusal::LinkFull { node, to } => put_nodes(b"link_full ", node, to, out)?,
        Refusal::Locked { txn } => put_named(b"1222 ", txn, out)?,
        Refusal::Conflict { commit, snapshot } => put_two(b"3960 ", commit, snapshot, out)?,
        Refusal::PageFull { need, free } => put_two(b"page_full ", need, free, out)?,
        Refusal::BufferFull { need, free } => put_two(b"buffer_full ", need, free, out)?,
        Refusal::LogFull { need, free } => put_two(b"log_full ", need, free, out)?,
        Refusal::Held { horizon, limit } => put_two(b"held ", horizon, limit, out)?,
        Refusal::NotYet { lsn, node } => {
            put_named(b"not_yet ", lsn, out)?;
            put_node(b" ", node, out)?;
        }
        Refusal::Behind { front, seen } => put_two(b"behind ", front, seen, out)?,
        Refusal::OldTerm { term, seen } => put_two(b"old_term ", term, seen, out)?,
        Refusal::TooOld { snapshot, horizon } => put_two(b"too_old ", snapshot, horizon, out)?,
        Refusal::Unreadable { page } => put_named(b"823 ", u64::from(page), out)?,
        Refusal::Torn { page } => put_named(b"824 ", u64::from(page), out)?,
        Refusal::Pending { page } => put_named(b"829 ", u64::from(page), out)?,
        Refusal::NotNoted { page } => put_named(b"not_noted ", u64::from(page), out)?,
        Refusal::Gap { expected, first } => put_two(b"gap ", expected, first, out)?,
        Refusal::Wait { applied, asked } => put_two(b"wait ", applied, asked, out)?,
        Refusal::NotUndone { hardened, undo } => put_two(b"not_undone ", hardened, undo, out)?,
        Refusal::NotSynchronised { node } => put_node(b"not_synchronised ", node, out)?,
        Refusal::NoTarget => put_text(b"no_target", out)?,
        Refusal::Unhardened { count } => put_named(b"unhardened ", count, out)?,
        Refusal::Spent => put_text(b"spent", out)?,
        Refusal::Nothing => put_text(b"nothing", out)?,
    }
    Ok(())
}
