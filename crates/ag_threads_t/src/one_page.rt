//! A stripe of one page: of 16 data pages each stripe has one, whose versions lie in a vector. It waits for good where memory is
//! refused.
ghost use Rattle.std.specs.Prelude.{◌≡◌, ◌+◌, ◌-◌, ◌^◌, ◌<◌, ◌≤◌, ℕ, List, false, length, get_or, refl};
ghost use Rattle.ag_model.specs.declared.record.Record.{Record};
ghost use Rattle.ag_model.specs.Page.{value};
ghost use Rattle.ag_model.specs.Rows.{contains};
ghost use Rattle.ag_version.specs.Steps.{AreProper, IsAt, record_of};

use crate::gate::{GATE_KEY, Gate};
use ag_model::message::Block;
use ag_model::record::{PageList, Record};
use ag_model::stands::{Stands, Steps};
use ag_model::value::{Change, PageValue, Row, TooOld};
use ag_version::{abort, put, row_at, stamp, trim};
use std::sync::Wait;
use std::thread;

/// A stripe with its page, and the gate that reads of one key come by.
#[derive(Drop)]
pub struct OnePage<'a, R: Wait> {
    pub rt: &'a R,
    pub gate: &'a Gate,
    pub number: u8,
    pub opening: u64,
    pub applied: u64,
    pub value: PageValue,
    pub ghost small: { number < 16 },
    pub ghost own: { value.page ≡ 16 + number },
    pub ghost low: { opening ≤ applied },
}

impl<'a, R: Wait> Stands for OnePage<'a, R> {
    ghost use Rattle.std.specs.Prelude.{false, refl};
    ghost use Rattle.ag_model.specs.Stripes.{Standing};

    ghost standing = { λ s. record { number = s.number; pages = 16; opening = s.opening; applied = s.applied; value = λ page. s.value; is_bad = λ page. false; is_pending = λ page. false } };

    ghost may_be_bad = { false };

    ghost none_bad = { λ e s page. refl };

    fn opening(&self) -> u64 {
        self.opening
    }

    fn applied(&self) -> u64 {
        self.applied
    }

    fn pages(&self) -> u16 {
        16
    }
}

impl<'a, R: Wait> Steps for OnePage<'a, R> {
    fn apply(&mut self, block: &Block) -> u64 {
        let lsn = redo_all(
            self.rt,
            &mut self.value,
            self.applied,
            block.records.as_slice(),
        );
        self.applied = lsn;
        lsn
    }

    fn row_at(&mut self, key: u32, snapshot: u64) -> Result<Row, TooOld> {
        if key == GATE_KEY {
            self.gate.pass(self.rt);
        }
        row_at(&self.value, key, snapshot, None)
    }

    ghost never_bad = { refl };
}

/// Redoes records that come after an LSN, and answers the last LSN.
fn redo_all<R: Wait>(rt: &R, v: &mut PageValue, applied: u64, records: &[Record]) -> u64
    requires { applied + length records.now < 2 ^ 64 }
    ensures end { result ≡ applied + length records.now }
    ensures page { v.new.page ≡ v.old.page }
    ensures redone { (log : List Record) → AreProper 16 log → 16 ≤ v.old.page → v.old.page < 32
        → ((i : ℕ) (d : Record) → i < length records.now → IsAt log (applied + i + 1) (get_or records.now i d))
        → v.old ≡ value 16 log applied v.old.page → v.new ≡ value 16 log (applied + length records.now) v.old.page }
{
    let mut lsn = applied;
    for entry in records {
        lsn += 1;
        redo(rt, v, lsn, entry);
    }
    lsn
}

/// Redoes one record.
fn redo<R: Wait>(rt: &R, v: &mut PageValue, lsn: u64, entry: &Record)
    ensures page { v.new.page ≡ v.old.page }
    ensures redone { (log : List Record) → AreProper 16 log → 16 ≤ v.old.page → v.old.page < 32 → IsAt log lsn entry.now
        → v.old ≡ value 16 log (lsn - 1) v.old.page → v.new ≡ value 16 log lsn v.old.page }
{
    match entry {
        Record::Put { txn, key, value } => change(rt, v, lsn, *txn, *key, &Change::Put(*value)),
        Record::Del { txn, key } => change(rt, v, lsn, *txn, *key, &Change::Del),
        Record::Commit { txn, pages } => {
            if has(pages, v.page) {
                stamp(v, lsn, *txn);
            }
        }
        Record::Abort { txn, pages } => {
            if has(pages, v.page) {
                abort(v, lsn, *txn);
            }
        }
        Record::Trim { page, horizon } => {
            if *page == v.page {
                trim(v, lsn, *horizon);
            }
        }
        Record::Term { .. } => {}
    }
}

/// Redoes a Put or a Del.
fn change<R: Wait>(rt: &R, v: &mut PageValue, lsn: u64, txn: u64, key: u32, change: &Change)
    ensures page { v.new.page ≡ v.old.page }
    ensures redone { (log : List Record) → AreProper 16 log → 16 ≤ v.old.page → v.old.page < 32 → IsAt log lsn (record_of txn key change.now)
        → v.old ≡ value 16 log (lsn - 1) v.old.page → v.new ≡ value 16 log lsn v.old.page }
{
    if u32::from(v.page) != 16 + key % 16 {
        return;
    }
    match put(v, lsn, txn, key, change) {
        Ok(()) => {}
        Err(_) => wait_for_good(rt),
    }
}

/// Never returns.
fn wait_for_good<R: Wait>(rt: &R)
    ensures { ⊥ }
{
    for _ in rt.forever() {
        thread::yield_now();
    }
    unreachable!()
}

/// Whether a page is listed.
fn has(pages: &PageList, page: u16) -> bool
    ensures { result ≡ contains page pages.now }
{
    pages.as_slice().iter().any(|listed| page == *listed)
}
