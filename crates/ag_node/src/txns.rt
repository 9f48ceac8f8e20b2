//! The transactions of a log.
ghost use Rattle.std.specs.Prelude.{◌≡◌};
ghost use Rattle.ag_model.specs.Txns.{last_txn};
ghost use Rattle.ag_node.specs.Folded.{txn_after};

use ag_model::record::Record;

/// The greater of a transaction number and that of a record, if it has one.
fn txn_after(last: u64, entry: &Record) -> u64
    ensures { result ≡ txn_after last entry.now }
{
    match entry {
        Record::Put { txn, .. }
        | Record::Del { txn, .. }
        | Record::Commit { txn, .. }
        | Record::Abort { txn, .. } => last.max(*txn),
        Record::Trim { .. } | Record::Term { .. } => last,
    }
}

/// The greatest transaction number of a log, or 0.
pub(crate) fn last_txn(log: &[Record]) -> u64
    ensures { result ≡ last_txn log.now }
{
    let mut last = 0;
    for entry in log {
        last = txn_after(last, entry);
    }
    last
}
