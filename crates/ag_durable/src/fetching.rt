//! Images of pages that are read.
ghost use Rattle.std.specs.Prelude.{◌≡◌, ◌≤◌, [], Ok, IsTrue, IfOk, OnOk, IsErrOf};
ghost use Rattle.ag_outside.specs.Counts.{HasRisen};
ghost use Rattle.ag_outside.specs.Disks.{SameImages};
ghost use Rattle.ag_outside.specs.Shown.{reads_of, holds_of};
ghost use Rattle.ag_logstore.specs.Stored.{log_end};
ghost use Rattle.ag_page.specs.declared.home.Got.{Got};
ghost use Rattle.ag_page.specs.declared.home.Got.TheVariants.{Sound};
ghost use Rattle.ag_page.specs.Home.{found, readable};
ghost use Rattle.ag_pagestore.specs.Places.{IsPage, image_of, page_cells};
ghost use Rattle.ag_durable.specs.Fetched.{OnlyFetches};
ghost use Rattle.ag_durable.specs.Opening.{HasPlace, rest_of};

use crate::durable::Durable;
use crate::fault::DurableFault;
use crate::progress::Came;
use ag_model::answer::Cell;
use ag_outside::disk::{Disk, DiskError};
use ag_outside::order::Arm;
use ag_outside::scripted::Scripted;
use ag_page::{Got, Image};
use ag_pagestore::{PageReadFault, read, read_cells};
use ag_writes::Order;

/// What is to be ordered of a disk whose counts begin anew, so that this is still ordered of the event.
fn rest_of(order: Order) -> Arm
    requires { HasPlace order }
    ensures { result ≡ rest_of order }
{
    match order {
        Order::Free => Arm::Free,
        Order::StopAt { writes, mask } => Arm::Stop {
            write: writes + 1,
            mask,
        },
        Order::FailAt { calls } => Arm::Fail { call: calls + 1 },
    }
}

/// Reads the image of a page outside of any order, and tells what is found of it.
fn read_free<D: Disk>(
    disk: &mut Scripted<D>,
    page: u16,
    into: &mut Image,
) -> Result<Got, DurableFault>
    requires page { IsPage page }
    requires room { log_end ≤ D.size disk.old.disk }
    requires modelled { IsTrue (D.keeps disk.old.disk) }
    requires synced { disk.old.unsynced ≡ [] }
    ensures found { IfOk result (λ got. got ≡ found (image_of (reads_of D.reads disk.old) page)) }
    ensures image { result ≡ Ok Sound → image_of (reads_of D.reads disk.old) page ≡ readable into.new }
    ensures content { reads_of D.reads disk.new ≡ reads_of D.reads disk.old }
    ensures crash { SameImages (holds_of D.keeps D.may_hold disk.old) (holds_of D.keeps D.may_hold disk.new) }
    ensures size { D.size disk.new.disk ≡ D.size disk.old.disk }
    ensures keeps { D.keeps disk.new.disk ≡ D.keeps disk.old.disk }
    ensures unsynced { disk.new.unsynced ≡ [] }
    ensures later { D.faults disk.old.disk ≤ D.faults disk.new.disk }
    ensures fault { IsErrOf result DurableFault.DiskFault → HasRisen (D.faults disk.old.disk) (D.faults disk.new.disk) }
{
    disk.arm(Arm::Free);
    match read(disk, page, into) {
        Ok(()) => Ok(Got::Sound),
        Err(PageReadFault::Torn) => Ok(Got::Torn),
        Err(PageReadFault::Unreadable) => Ok(Got::Lost),
        Err(PageReadFault::DiskFault) => Err(DurableFault::DiskFault),
        Err(PageReadFault::NoMemory) => Err(DurableFault::NoMemory),
    }
}

/// Reads the cells of a page outside of any order.
fn read_cells_free<D: Disk>(disk: &mut Scripted<D>, page: u16) -> Result<[Cell; 16], DurableFault>
    requires page { IsPage page }
    requires room { log_end ≤ D.size disk.old.disk }
    requires modelled { IsTrue (D.keeps disk.old.disk) }
    requires synced { disk.old.unsynced ≡ [] }
    ensures cells { IfOk result (λ cells. cells ≡ page_cells (reads_of D.reads disk.old) page) }
    ensures content { reads_of D.reads disk.new ≡ reads_of D.reads disk.old }
    ensures crash { SameImages (holds_of D.keeps D.may_hold disk.old) (holds_of D.keeps D.may_hold disk.new) }
    ensures size { D.size disk.new.disk ≡ D.size disk.old.disk }
    ensures keeps { D.keeps disk.new.disk ≡ D.keeps disk.old.disk }
    ensures unsynced { disk.new.unsynced ≡ [] }
    ensures later { D.faults disk.old.disk ≤ D.faults disk.new.disk }
    ensures fault { IsErrOf result DurableFault.DiskFault → HasRisen (D.faults disk.old.disk) (D.faults disk.new.disk) }
{
    disk.arm(Arm::Free);
    match read_cells(disk, page) {
        Ok(cells) => Ok(cells),
        Err(DiskError::Failed) => Err(DurableFault::DiskFault),
        Err(DiskError::NoMemory) => Err(DurableFault::NoMemory),
    }
}

impl<D: Disk> Durable<D> {
    /// Reads the image of a page, from 16 to 2,063, and tells what is found of it. A sound one is in the buffer. No write and no
    /// call of the event is counted for it.
    pub fn fetch(&mut self, page: u16, into: &mut Image) -> Result<Got, DurableFault>
        requires underway { self.old.progress.came ≡ Came.Underway }
        requires page { IsPage page }
        ensures found { IfOk result (λ got. got ≡ found (image_of (reads_of D.reads self.old.disk) page)) }
        ensures image { result ≡ Ok Sound → image_of (reads_of D.reads self.old.disk) page ≡ readable into.new }
        ensures only { OnOk result (OnlyFetches D.reads self.old self.new) }
        ensures later { D.faults self.old.disk.disk ≤ D.faults self.new.disk.disk }
        ensures fault { IsErrOf result DurableFault.DiskFault → HasRisen (D.faults self.old.disk.disk) (D.faults self.new.disk.disk) }
    {
        let got = read_free(&mut self.disk, page, into);
        self.disk.arm(rest_of(self.progress.order));
        if got.is_err() {
            self.progress.came = Came::Unknown;
        }
        got
    }

    /// The cells of a page, from 16 to 2,063. No call of the event is counted for them.
    pub fn cells(&mut self, page: u16) -> Result<[Cell; 16], DurableFault>
        requires underway { self.old.progress.came ≡ Came.Underway }
        requires page { IsPage page }
        ensures cells { IfOk result (λ cells. cells ≡ page_cells (reads_of D.reads self.old.disk) page) }
        ensures only { OnOk result (OnlyFetches D.reads self.old self.new) }
        ensures later { D.faults self.old.disk.disk ≤ D.faults self.new.disk.disk }
        ensures fault { IsErrOf result DurableFault.DiskFault → HasRisen (D.faults self.old.disk.disk) (D.faults self.new.disk.disk) }
    {
        let cells = read_cells_free(&mut self.disk, page);
        self.disk.arm(rest_of(self.progress.order));
        if cells.is_err() {
            self.progress.came = Came::Unknown;
        }
        cells
    }
}
