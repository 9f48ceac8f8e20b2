//! The records of a whole transaction, and the pages that its Commit lists.
ghost use Rattle.std.specs.Prelude.{◌≡◌, ℕ, ◌<◌, ◌≤◌, ◌∷◌, [], OnOk, IfOk, length, slice_index};
ghost use Rattle.ag_model.specs.Txns.{insert_rising};
ghost use Rattle.ag_rules.specs.CommitEvent.{end_record};
ghost use Rattle.ag_rules.specs.PutEvent.{record_of};
ghost use Rattle.ag_rules.specs.SetEvent.{pages_of_pairs, records_of_set};

use ag_model::event::Pair;
use ag_model::page::page_of;
use ag_model::record::{PageList, Record, RecordList};
use ag_model::value::{Change, NoMemory};
use std::alloc::{AllocError, Global};

/// The place of the first number that is not below this one, or the end.
fn place_of(numbers: &[u16], number: u16) -> usize
    ensures within { result ≤ length numbers.now }
    ensures before { (k : ℕ) → k < result → slice_index numbers.now k < number }
    ensures there { result < length numbers.now → number ≤ slice_index numbers.now result }
{
    for (place, other) in numbers.iter().enumerate() {
        if *other >= number {
            return place;
        }
    }
    numbers.len()
}

/// Puts a number into rising ones, once.
fn insert_rising(numbers: &mut Vec<u16>, number: u16) -> Result<(), AllocError>
    ensures { OnOk result (numbers.new.items ≡ insert_rising numbers.old.items number) }
{
    let place = place_of(numbers.as_slice(), number);
    if place == numbers.len() || numbers[place] != number {
        numbers.insert(place, number)?;
    }
    Ok(())
}

/// The pages of these pairs, rising and each once, where there are so many pages. It takes time by the pairs only.
pub(crate) fn pages_of_pairs(
    alloc: Global,
    pages: u16,
    pairs: &[Pair],
) -> Result<PageList, NoMemory>
    requires some { 16 ≤ pages }
    requires few { pages ≤ 2048 }
    ensures { IfOk result (λ listed. listed ≡ pages_of_pairs pages pairs.now) }
{
    let mut listed = Vec::new(alloc);
    for pair in pairs {
        insert_rising(&mut listed, page_of(pages, pair.key))?;
    }
    Ok(PageList::from_vec(listed))
}

/// The records of a transaction of these pairs: a Put for each, and the Commit.
pub(crate) fn records_of_set(
    alloc: Global,
    pages: u16,
    txn: u64,
    pairs: &[Pair],
) -> Result<RecordList, NoMemory>
    requires some { 16 ≤ pages }
    requires few { pages ≤ 2048 }
    ensures { IfOk result (λ new. new ≡ records_of_set pages txn pairs.now) }
{
    let mut records = RecordList::new(alloc);
    for pair in pairs {
        records.push(Record::Put {
            txn,
            key: pair.key,
            value: pair.value,
        })?;
    }
    let listed = pages_of_pairs(alloc, pages, pairs)?;
    records.push(Record::Commit { txn, pages: listed })?;
    Ok(records)
}

/// The record of a change.
pub(crate) fn record_of(txn: u64, key: u32, change: &Change) -> Record
    ensures { result ≡ record_of txn key change.now }
{
    match change {
        Change::Put(value) => Record::Put {
            txn,
            key,
            value: *value,
        },
        Change::Del => Record::Del { txn, key },
    }
}

/// A list of one record.
pub(crate) fn one_record(alloc: Global, entry: Record) -> Result<RecordList, NoMemory>
    ensures { IfOk result (λ new. new ≡ entry ∷ []) }
{
    let mut new = RecordList::new(alloc);
    new.push(entry)?;
    Ok(new)
}

/// The Commit of a transaction, or else its Abort.
pub(crate) fn end_record(commits: bool, txn: u64, listed: Vec<u16>) -> Record
    ensures { result ≡ end_record commits txn listed.items }
{
    let pages = PageList::from_vec(listed);
    if commits {
        Record::Commit { txn, pages }
    } else {
        Record::Abort { txn, pages }
    }
}
