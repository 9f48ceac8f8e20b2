//! A replica's data on its disk, with what memory has of it.
ghost use Rattle.std.specs.Prelude.{◌≡◌, ◌≤◌, ◌≢◌};
ghost use Rattle.ag_writes.specs.Performing.{begun};
ghost use Rattle.ag_keeping.specs.Keeping.{rules_master};
ghost use Rattle.ag_durable.specs.Views.{kept_of, reached_of};
ghost use Rattle.ag_durable.specs.Opening.{CanLoad, arm_of};

use crate::progress::{Came, Progress};
use ag_logstore::{HardenedLog, LogStore};
use ag_master::Master;
use ag_model::event::Suffix;
use ag_outside::disk::Disk;
use ag_outside::order::Arm;
use ag_outside::scripted::Scripted;
use ag_suspect::Suspects;
use std::alloc::Global;
use std::marker::Model;

/// What a replica keeps, on its disk and in memory, in the middle of an event.
#[derive(Drop)]
pub struct Durable<D: Disk> {
    pub(crate) disk: Scripted<D>,
    pub(crate) log: LogStore,
    pub(crate) master: Master,
    pub(crate) suspects: Suspects,
    /// Whether a block can follow the log: after a load not before a master with a higher incarnation was written.
    pub(crate) appends: bool,
    pub(crate) progress: Progress,
}

impl<D: Disk> Model for Durable<D> {
    ghost use Rattle.ag_keeping.specs.Keeping.{rules_master};
    ghost use Rattle.ag_durable.specs.Views.{DurableView};
    ghost use Rattle.ag_durable.specs.Standing.{Stands};

    ghost Value = { DurableView D };

    ghost view = { λ s. record { disk = s.disk; log = s.log; master = s.master; suspects = s.suspects; appends = s.appends; progress = s.progress } };

    ghost invariant = { λ s. Stands D.size D.keeps D.reads D.may_hold (record { disk = s.disk; log = s.log; master = s.master; suspects = s.suspects; appends = s.appends; progress = s.progress }) };
}

/// What a suffix orders of a disk, where writes and calls count from 1.
fn arm_of(suffix: &Suffix) -> Arm
    ensures { result ≡ arm_of suffix.now }
{
    match suffix {
        Suffix::Whole => Arm::Free,
        Suffix::Stop { write, mask } => Arm::Stop {
            write: (*write).max(1),
            mask: *mask,
        },
        Suffix::Fail { call } => Arm::Fail {
            call: (*call).max(1),
        },
    }
}

impl<D: Disk> Durable<D> {
    /// Begins an event with this suffix, where the one before has come to its end.
    pub fn begin(&mut self, alloc: Global, suffix: &Suffix)
        requires underway { self.old.progress.came ≡ Came.Underway }
        ensures begun { reached_of D.reads self.new ≡ begun suffix.now (kept_of D.reads self.old) }
        ensures underway { self.new.progress.came ≡ Came.Underway }
        ensures log { self.new.log ≡ self.old.log }
        ensures master { self.new.master ≡ self.old.master }
        ensures suspects { self.new.suspects ≡ self.old.suspects }
        ensures appends { self.new.appends ≡ self.old.appends }
        ensures later { D.faults self.old.disk.disk ≤ D.faults self.new.disk.disk }
    {
        self.disk.arm(arm_of(suffix));
        self.progress = Progress::begun(alloc, suffix);
    }

    /// How far the event has come.
    pub fn progress(&self) -> &Progress
        ensures { result.now ≡ self.now.progress }
    {
        &self.progress
    }

    /// The log in memory. It is the disk's while more can be written.
    pub fn log(&self) -> &HardenedLog
        ensures is { result.now ≡ self.now.log.log }
        ensures kept { self.now.progress.came ≡ Came.Underway → (kept_of D.reads self.now).log ≡ result.now }
    {
        self.log.log()
    }

    /// The master in memory. It is the disk's while more can be written.
    pub fn master(&self) -> &Master
        ensures is { result.now ≡ self.now.master }
        ensures kept { self.now.progress.came ≡ Came.Underway → (kept_of D.reads self.now).master ≡ rules_master result.now }
    {
        &self.master
    }

    /// The suspect rows in memory. They are the disk's while more can be written.
    pub fn suspects(&self) -> &Suspects
        ensures is { result.now ≡ self.now.suspects }
        ensures kept { self.now.progress.came ≡ Came.Underway → (kept_of D.reads self.now).suspects ≡ result.now }
    {
        &self.suspects
    }

    /// Whether a block can follow the log.
    pub fn can_append(&self) -> bool
        ensures { result ≡ self.now.appends }
    {
        self.appends
    }

    /// The disk. Unless a fault has come it is that of the replica, and can be loaded.
    pub fn into_disk(self) -> Scripted<D>
        ensures same { result ≡ self.disk }
        ensures can { self.progress.came ≢ Came.Unknown → CanLoad D.size D.keeps D.reads result }
    {
        self.disk
    }
}
