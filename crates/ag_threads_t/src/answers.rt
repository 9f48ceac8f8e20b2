//! What readers were answered, and what a log says of it, by plain code.
use ag_model::record::{Log, Record};
use ag_model::value::Row;
use std::alloc::Global;

/// What a reader was answered: the front, the key and the row.
#[derive(Clone, Copy)]
pub struct Answer {
    pub at: u64,
    pub key: u32,
    pub row: Row,
}

/// Every answer of a reader in order, and how many calls ended otherwise.
#[derive(Drop)]
pub struct Session {
    pub answers: Vec<Answer>,
    pub faults: u64,
}

impl Session {
    /// A session with no answer.
    pub fn new(alloc: Global) -> Session {
        Session {
            answers: Vec::new(alloc),
            faults: 0,
        }
    }

    /// Adds an answer.
    pub fn remember(&mut self, answer: Answer) {
        if self.answers.push(answer).is_err() {
            self.fail();
        }
    }

    /// Counts a call that ended otherwise.
    pub fn fail(&mut self) {
        self.faults = self.faults.saturating_add(1);
    }

    /// Whether one of the answers is a row that is there.
    pub fn is_any_found(&self) -> bool {
        self.answers
            .as_slice()
            .iter()
            .any(|answer| answer.row != Row::Absent)
    }

    /// How many answers are wrong by the log, and calls that ended otherwise: each answer is the row of the log at its front, which
    /// ends a block, and the fronts never fall.
    pub fn wrong(&self, log: &Log) -> u64 {
        let mut wrong = self.faults;
        let mut last = 1;
        for answer in self.answers.as_slice() {
            let row = row_after(log.records.as_slice(), answer.at, answer.key);
            let ends = log.ends.as_slice().contains(&answer.at);
            if answer.row != row || !ends || answer.at < last {
                wrong = wrong.saturating_add(1);
            }
            last = answer.at;
        }
        wrong
    }
}

/// The row of a key after the records up to this LSN: the last that a transaction committed there has put.
fn row_after(records: &[Record], at: u64, key: u32) -> Row {
    for i in (0..records.len()).rev() {
        if (i as u64) < at
            && let Record::Commit { txn, .. } = &records[i]
            && let Some(row) = left_by(&records[..i], *txn, key)
        {
            return row;
        }
    }
    Row::Absent
}

/// What a transaction leaves of a key, if it changes it.
fn left_by(records: &[Record], changer: u64, changed: u32) -> Option<Row> {
    let mut row = None;
    for entry in records {
        match entry {
            Record::Put { txn, key, value } => {
                if *txn == changer && *key == changed {
                    row = Some(Row::Found(*value));
                }
            }
            Record::Del { txn, key } => {
                if *txn == changer && *key == changed {
                    row = Some(Row::Absent);
                }
            }
            _ => {}
        }
    }
    row
}
