//! How far an event has come with its writes.
ghost use Rattle.std.specs.Prelude.{◌≡◌, ◌≢◌, ◌+◌, [], OnOk, OnErr, IsErrOf};
ghost use Rattle.ag_model.specs.Cells.{keeps, keeps_all};
ghost use Rattle.ag_writes.specs.Performing.{order_of};
ghost use Rattle.ag_durable.specs.Coming.{step_passed, step_broken, sync_passed, sync_broken, WasOrdered};

use crate::fault::DurableFault;
use ag_model::event::Suffix;
use ag_model::list::ListOf;
use ag_model::record::PageList;
use ag_model::value::NoMemory;
use ag_outside::order::Why;
use ag_writes::{Order, order_of};
use std::alloc::Global;

/// How far an event has come.
#[derive(Clone, Copy, Debug, PartialEq, Eq)]
pub enum Came {
    /// More can be written.
    Underway,
    /// It was stopped in a write.
    Stopped,
    /// A call failed by its order.
    Failed,
    /// A fault has left open what the disk keeps.
    Unknown,
}

/// What is still ordered of an event, how many step writes and how many writes it has made so far, and the pages that these name.
#[derive(Debug, Drop)]
pub struct Progress {
    pub order: Order,
    pub steps: u32,
    pub writes: u32,
    pub named: PageList,
    pub came: Came,
}

/// Whether a mask keeps each of so many sectors, counted from 0.
fn keeps_all(mask: u64, sectors: u32) -> bool
    ensures { result ≡ keeps_all mask 0 sectors }
{
    (0..sectors).all(|sector| keeps(mask, sector))
}

/// Whether a mask keeps the sector of this number.
fn keeps(mask: u64, sector: u32) -> bool
    ensures { result ≡ keeps mask sector }
{
    (mask >> (sector % 64)) % 2 == 1
}

/// One more.
fn one_more(count: u32) -> Result<u32, NoMemory>
    ensures { OnOk result (result ≡ Ok (count + 1)) }
{
    match count.checked_add(1) {
        Some(next) => Ok(next),
        None => Err(NoMemory),
    }
}

impl Progress {
    /// An event that begins with this suffix.
    pub(crate) fn begun(alloc: Global, suffix: &Suffix) -> Progress
        ensures { result ≡ record { order = order_of suffix.now; steps = 0; writes = 0; named = []; came = Came.Underway } }
    {
        Progress {
            order: order_of(suffix),
            steps: 0,
            writes: 0,
            named: ListOf::new(alloc),
            came: Came::Underway,
        }
    }

    /// A step was written and synced.
    fn pass_step(&mut self) -> Result<(), NoMemory>
        ensures { OnOk result (self.new ≡ step_passed self.old) }
    {
        self.steps = one_more(self.steps)?;
        self.writes = one_more(self.writes)?;
        self.order = self.order.nearer(1);
        Ok(())
    }

    /// The order was reached in a step of so many sectors, or in its sync.
    fn break_step(&mut self, sectors: u32) -> Result<(), NoMemory>
        ensures { OnOk result (self.new ≡ step_broken self.old.order self.old sectors) }
    {
        match self.order {
            Order::StopAt { mask, .. } => {
                self.writes = one_more(self.writes)?;
                if keeps_all(mask, sectors) {
                    self.steps = one_more(self.steps)?;
                }
                self.came = Came::Stopped;
            }
            Order::FailAt { .. } => self.came = Came::Failed,
            Order::Free => self.came = Came::Unknown,
        }
        Ok(())
    }
}

/// A step of so many sectors ended so, by what the disk says.
fn step_by(
    progress: &mut Progress,
    went: Result<(), DurableFault>,
    why: Why,
    sectors: u32,
) -> Result<(), DurableFault>
    ensures went { OnOk result (OnOk went (progress.new ≡ step_passed progress.old)) }
    ensures broke { OnOk result (IsErrOf went DurableFault.DiskFault → WasOrdered why × (progress.new ≡ step_broken progress.old.order progress.old sectors)) }
    ensures known { OnOk result (went ≢ Err DurableFault.NoMemory) }
    ensures fault { IsErrOf result DurableFault.DiskFault → (went ≡ Err DurableFault.DiskFault) × (WasOrdered why → ⊥) }
{
    match went {
        Ok(()) => Ok(progress.pass_step()?),
        Err(DurableFault::DiskFault) => match why {
            Why::Stopped { .. } | Why::Device => Ok(progress.break_step(sectors)?),
            Why::Nothing | Why::Inner => Err(DurableFault::DiskFault),
        },
        Err(DurableFault::NoMemory) => Err(DurableFault::NoMemory),
    }
}

/// What came of a step of so many sectors, by what the disk says. After a fault that isn't known.
pub(crate) fn after_step(
    progress: &mut Progress,
    went: Result<(), DurableFault>,
    why: Why,
    sectors: u32,
) -> Result<(), DurableFault>
    ensures went { OnOk result (OnOk went (progress.new ≡ step_passed progress.old)) }
    ensures broke { OnOk result (IsErrOf went DurableFault.DiskFault → WasOrdered why × (progress.new ≡ step_broken progress.old.order progress.old sectors)) }
    ensures known { OnOk result (went ≢ Err DurableFault.NoMemory) }
    ensures fault { IsErrOf result DurableFault.DiskFault → (went ≡ Err DurableFault.DiskFault) × (WasOrdered why → ⊥) }
    ensures unknown { OnErr result (progress.new.came ≡ Came.Unknown) }
{
    let done = step_by(progress, went, why, sectors);
    if done.is_err() {
        progress.came = Came::Unknown;
    }
    done
}

/// What came of a sync alone, by what the disk says. After a fault that isn't known.
pub(crate) fn after_sync(
    progress: &mut Progress,
    went: Result<(), DurableFault>,
    why: Why,
) -> Result<(), DurableFault>
    ensures went { OnOk result (OnOk went (progress.new ≡ sync_passed progress.old)) }
    ensures broke { OnOk result (IsErrOf went DurableFault.DiskFault → WasOrdered why × (progress.new ≡ sync_broken progress.old.order progress.old)) }
    ensures known { OnOk result (went ≢ Err DurableFault.NoMemory) }
    ensures fault { IsErrOf result DurableFault.DiskFault → (went ≡ Err DurableFault.DiskFault) × (WasOrdered why → ⊥) }
    ensures unknown { OnErr result (progress.new.came ≡ Came.Unknown) }
{
    match went {
        Ok(()) => {
            progress.order = progress.order.nearer(0);
            Ok(())
        }
        Err(DurableFault::DiskFault) if matches!(why, Why::Stopped { .. } | Why::Device) => {
            progress.came = match progress.order {
                Order::FailAt { .. } => Came::Failed,
                Order::Free | Order::StopAt { .. } => Came::Unknown,
            };
            Ok(())
        }
        Err(e) => {
            progress.came = Came::Unknown;
            Err(e)
        }
    }
}
