//! The open transactions.
ghost use Rattle.std.specs.Prelude.{◌≡◌, ◌==◌, ◌≤◌, ◌<◌, [], length, map, not, MatchOption, IfOk, OnOk, ◌++◌, ◌∷◌, if◌then◌else◌};
ghost use Rattle.std.specs.List.{filter, list_any};
ghost use Rattle.ag_rules.specs.GetEvent.{snapshot_in};
ghost use Rattle.ag_rules.specs.Replica.{least};
ghost use Rattle.ag_txn.specs.Changes.{touched_in};
ghost use Rattle.ag_model.specs.Rows.{contains, page_numbers};
ghost use Rattle.ag_txn.specs.View.{plain, touching};

use ag_model::page_set::PageSet;
use ag_model::value::NoMemory;
use std::alloc::Global;

/// An open transaction: its number, its snapshot, which is an LSN, and the pages that its Puts and Dels touched.
#[derive(Clone, Copy, Debug)]
pub struct OpenTxn {
    pub txn: u64,
    pub snapshot: u64,
    pub touched: PageSet,
}

/// Whether a transaction is among these.
pub(crate) fn is_among(txns: &[OpenTxn], txn: u64) -> bool
    ensures { result ≡ list_any (λ o. o.txn == txn) txns.now }
{
    txns.iter().any(|open| open.txn == txn)
}

/// The snapshot of a transaction among these, an LSN.
pub(crate) fn snapshot_of(txns: &[OpenTxn], txn: u64) -> u64
    ensures { result ≡ snapshot_in txn (map plain txns.now) }
{
    let mut snapshot = 0;
    for open in txns {
        if open.txn == txn {
            snapshot = open.snapshot;
        }
    }
    snapshot
}

/// The least snapshot of these, an LSN.
pub(crate) fn least_snapshot(txns: &[OpenTxn]) -> Option<u64>
    ensures { MatchOption result (txns.now ≡ []) (λ lsn. lsn ≡ least (map (λ t. t.snapshot) (map plain txns.now))) }
{
    let first = txns.first()?;
    let mut least = first.snapshot;
    for open in txns {
        least = least.min(open.snapshot);
    }
    Some(least)
}

/// An open transaction, which touches a page now if it has this number.
fn touching(old: OpenTxn, txn: u64, page: u16) -> OpenTxn
    requires low { 16 ≤ page }
    requires high { page < 2064 }
    ensures { result ≡ touching txn page old }
{
    if old.txn != txn {
        return old;
    }
    let mut touched = old.touched;
    touched.insert(page);
    OpenTxn { touched, ..old }
}

/// Notes that a transaction touched a page.
pub(crate) fn touch(txns: &mut [OpenTxn], txn: u64, page: u16)
    requires low { 16 ≤ page }
    requires high { page < 2064 }
    ensures { txns.new ≡ map (touching txn page) txns.old }
{
    for open in txns.iter_mut() {
        *open = touching(*open, txn, page);
    }
}

/// The pages that a transaction among these touched.
pub(crate) fn touched_by(txns: &[OpenTxn], txn: u64) -> PageSet
    ensures { result ≡ touched_in txn txns.now }
{
    let mut touched = PageSet::empty();
    for open in txns {
        if open.txn == txn {
            touched = open.touched;
        }
    }
    touched
}

/// Takes a transaction off.
pub(crate) fn close(txns: &mut Vec<OpenTxn>, txn: u64)
    ensures { txns.new.items ≡ filter (λ o. not (o.txn == txn)) txns.old.items }
{
    txns.retain(|open| open.txn != txn);
}

/// Adds a page to a list, if it is to be there.
fn list_if(listed: &mut Vec<u16>, page: u16, there: bool) -> Result<(), NoMemory>
    ensures { OnOk result (listed.new.items ≡ listed.old.items ++ (if there then page ∷ [] else [])) }
{
    if there {
        listed.push(page)?;
    }
    Ok(())
}

/// The data pages of a set, rising, where there are so many data pages.
pub(crate) fn listed_pages(alloc: Global, pages: u16, set: &PageSet) -> Result<Vec<u16>, NoMemory>
    requires { pages ≤ 2048 }
    ensures { IfOk result (λ listed. listed.items ≡ filter (λ p. contains p set.now) (page_numbers pages)) }
{
    let mut listed = Vec::new(alloc);
    for page in 16..16 + pages {
        let there = set.has(page);
        list_if(&mut listed, page, there)?;
    }
    Ok(listed)
}
