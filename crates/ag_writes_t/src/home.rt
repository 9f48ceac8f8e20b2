//! A home of suspect rows in memory, which keeps the writes themselves.
ghost use Rattle.std.specs.Prelude.{◌≡◌, if◌then◌else◌, ◌≤◌, ◌+◌, ◌<◌, ◌^◌, [], length, OnOk, IfOk};
ghost use Rattle.std.specs.List.{AllByRecursion};
ghost use Rattle.ag_model.specs.Cells.{keeps};
ghost use Rattle.ag_rules.specs.Plan.{written, batch_written};
ghost use Rattle.ag_rules.specs.Cut.{batch_partly_written, steps_kept};
ghost use Rattle.ag_writes.specs.Performing.{Through, passed, stopped_in};
ghost use Rattle.ag_writes.specs.Homes.{reach_of};
ghost use Rattle.ag_writes.specs.Writes.{write_of, batch_of};
ghost use Rattle.ag_writes_t.specs.RowHomes.{standing, reached_by, progress_by, IsRowData, HasRoom, CanTake};

use ag_model::event::Suffix;
use ag_model::list::ListOf;
use ag_model::record::PageList;
use ag_writes::{Batch, Keeps, Order, Reach, Write, order_of};
use std::alloc::{AllocError, Global};

/// How an event ended before its end.
#[derive(Clone, Copy, Debug)]
pub enum Ended {
    No,
    Stopped { write: u32, step: u32 },
    Failed { step: u32 },
}

/// A home of suspect rows. It has 16 data pages and writes none of them.
#[derive(Drop)]
pub struct RowHome {
    alloc: Global,
    order: Order,
    rows: ListOf<Write>,
    steps: u32,
    writes: u32,
    ended: Ended,
}

/// Whether a mask keeps the sector of this number.
fn keeps(mask: u64, sector: u64) -> bool
    ensures { result ≡ keeps mask sector }
{
    (mask >> (sector % 64)) % 2 == 1
}

/// A write of a row once more.
fn again(write: &Write) -> Write
    requires { IsRowData write.now }
    ensures { result ≡ write.now }
{
    match write {
        Write::Note { page, kind } => Write::Note {
            page: *page,
            kind: *kind,
        },
        Write::Repaired { page } => Write::Repaired { page: *page },
        Write::Block { .. } => unreachable!(),
        Write::Master { .. } => unreachable!(),
        Write::Page { .. } => unreachable!(),
    }
}

/// Adds a row, if it is kept, and counts it.
fn add_if(rows: &mut ListOf<Write>, write: &Write, kept: bool) -> Result<u32, AllocError>
    requires { IsRowData write.now }
    ensures disk { OnOk result (standing rows.new ≡ (if kept then written (standing rows.old) (write_of write.now) else standing rows.old)) }
    ensures count { IfOk result (λ n. n ≡ (if kept then 1 else 0)) }
    ensures few { IfOk result (λ n. n ≤ 1) }
{
    if kept {
        rows.push(again(write))?;
        Ok(1)
    } else {
        Ok(0)
    }
}

/// Adds all rows.
fn add_all(rows: &mut ListOf<Write>, batch: &[Write]) -> Result<(), AllocError>
    requires { AllByRecursion IsRowData batch.now }
    ensures { OnOk result (standing rows.new ≡ batch_written (standing rows.old) (batch_of batch.now)) }
{
    for write in batch {
        add_if(rows, write, true)?;
    }
    Ok(())
}

/// Adds the rows that a mask keeps, and counts them.
fn add_kept(rows: &mut ListOf<Write>, batch: &[Write], mask: u64) -> Result<u32, AllocError>
    requires rows { AllByRecursion IsRowData batch.now }
    requires few { length batch.now < 2 ^ 32 }
    ensures disk { OnOk result (standing rows.new ≡ batch_partly_written mask 0 (standing rows.old) (batch_of batch.now)) }
    ensures steps { IfOk result (λ n. n ≡ steps_kept mask 0 (batch_of batch.now)) }
    ensures few { IfOk result (λ n. n ≤ length batch.now) }
{
    let mut count = 0;
    for (sector, write) in batch.iter().enumerate() {
        count += add_if(rows, write, keeps(mask, sector as u64))?;
    }
    Ok(count)
}

impl RowHome {
    /// A home with no row.
    pub fn new(alloc: Global) -> RowHome {
        RowHome {
            alloc,
            order: Order::Free,
            rows: ListOf::new(alloc),
            steps: 0,
            writes: 0,
            ended: Ended::No,
        }
    }

    /// The rows that stand, in the order in which they were written.
    pub fn rows(&self) -> &[Write] {
        self.rows.as_slice()
    }

    /// Writes all rows, and goes on with this order.
    fn pass(&mut self, batch: &[Write], order: Order) -> Result<Reach, AllocError>
        requires goes_on { self.old.ended ≡ Ended.No }
        requires room { HasRoom self.old.steps self.old.writes (batch_of batch.now) }
        ensures reached { OnOk result (reached_by self.new.ended self.new.order self.new.rows self.new.steps self.new.writes
            ≡ Through (passed order (progress_by self.old.order self.old.rows self.old.steps self.old.writes) (batch_of batch.now))) }
        ensures reach { IfOk result (λ r. r ≡ Reach.End) }
    {
        let count = batch.len() as u32;
        add_all(&mut self.rows, batch)?;
        self.order = order;
        self.steps += count;
        self.writes += count;
        Ok(Reach::End)
    }

    /// Stops in the write of this number, counted from 0.
    fn stop(&mut self, batch: &[Write], write: u32, mask: u64) -> Result<Reach, AllocError>
        requires goes_on { self.old.ended ≡ Ended.No }
        requires room { HasRoom self.old.steps self.old.writes (batch_of batch.now) }
        requires within { write < length batch.now }
        ensures reached { OnOk result (reached_by self.new.ended self.new.order self.new.rows self.new.steps self.new.writes
            ≡ stopped_in write mask (progress_by self.old.order self.old.rows self.old.steps self.old.writes) (batch_of batch.now)) }
        ensures reach { IfOk result (λ r. r ≡ reach_of 16 (reached_by self.new.ended self.new.order self.new.rows self.new.steps self.new.writes)) }
    {
        let count = write as usize + 1;
        let kept = add_kept(&mut self.rows, &batch[..count], mask)?;
        let write = self.writes + (write + 1);
        let step = self.steps + kept;
        self.ended = Ended::Stopped { write, step };
        Ok(Reach::Stop {
            write,
            step,
            torn: PageList::new(self.alloc),
        })
    }
}

impl Keeps for RowHome {
    ghost reached = { λ s. reached_by s.ended s.order s.rows s.steps s.writes };

    ghost pages = { λ s. 16 };

    ghost can_write = { λ s batch. CanTake (reached_by s.ended s.order s.rows s.steps s.writes) batch };

    ghost same = { λ a b. Unit {0} };

    type Fault = AllocError;

    fn begin(&mut self, suffix: &Suffix) {
        self.order = order_of(suffix);
        self.steps = 0;
        self.writes = 0;
        self.ended = Ended::No;
    }

    fn write(&mut self, batch: &Batch) -> Result<Reach, AllocError> {
        let batch = batch.as_slice();
        let count = batch.len() as u32;
        match self.order {
            Order::StopAt { writes, mask } if writes < count => self.stop(batch, writes, mask),
            Order::FailAt { calls } if calls <= count => {
                self.ended = Ended::Failed { step: self.steps };
                Ok(Reach::Fault { step: self.steps })
            }
            order => self.pass(batch, order.nearer(count)),
        }
    }

    ghost same_at_first = { λ h. tt };

    ghost same_on = { λ a b c p q. tt };
}
