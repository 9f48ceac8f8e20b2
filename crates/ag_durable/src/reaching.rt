//! How far an event came, with the pages that it left torn.
ghost use Rattle.std.specs.Prelude.{◌≡◌, ◌≢◌, ◌≤◌, ◌++◌, ◌∷◌, [], ◌&&◌, not, if◌then◌else◌, IfOk, OnOk, IsErrOf};
ghost use Rattle.ag_model.specs.Cells.{same_mark, is_sound};
ghost use Rattle.ag_model.specs.Rows.{contains};
ghost use Rattle.ag_outside.specs.Counts.{HasRisen};
ghost use Rattle.ag_outside.specs.Shown.{reads_of};
ghost use Rattle.ag_pagestore.specs.Places.{IsPage, page_cells};
ghost use Rattle.ag_rules.specs.Cut.{torn_pages};
ghost use Rattle.ag_writes.specs.Homes.{reach_of};
ghost use Rattle.ag_keeping.specs.Keeping.{kept_on};
ghost use Rattle.ag_durable.specs.Views.{reached_of};
ghost use Rattle.ag_durable.specs.Opening.{CanLoad};

use crate::durable::Durable;
use crate::fault::DurableFault;
use crate::progress::Came;
use ag_model::answer::Cell;
use ag_model::list::ListOf;
use ag_model::record::PageList;
use ag_outside::disk::{Disk, DiskError};
use ag_outside::order::Arm;
use ag_outside::scripted::Scripted;
use ag_pagestore::read_cells;
use ag_writes::Reach;
use std::alloc::Global;

/// Whether both cells have the same mark.
fn same_mark(one: &Cell, two: &Cell) -> bool
    ensures { result ≡ same_mark one.now two.now }
{
    match (one, two) {
        (Cell::Mark(m), Cell::Mark(n)) => m == n,
        _ => false,
    }
}

/// Whether no sector is lost, and all marks are equal.
fn is_sound(cells: &[Cell; 16]) -> bool
    ensures { result ≡ is_sound cells.now }
{
    let first = cells[0];
    cells.iter().all(|cell| same_mark(&first, cell))
}

/// Whether an event names a page.
fn names(named: &PageList, page: u16) -> bool
    ensures { result ≡ contains page named.now }
{
    named.as_slice().iter().any(|other| page == *other)
}

/// The cells of a page, which are read outside of any order.
fn cells_of<D: Disk>(disk: &mut Scripted<D>, page: u16) -> Result<[Cell; 16], DurableFault>
    requires can { CanLoad D.size D.keeps D.reads disk.old }
    requires page { IsPage page }
    ensures cells { IfOk result (λ cells. cells ≡ page_cells (reads_of D.reads disk.old) page) }
    ensures same { OnOk result (reads_of D.reads disk.new ≡ reads_of D.reads disk.old) }
    ensures can { OnOk result (CanLoad D.size D.keeps D.reads disk.new) }
    ensures later { D.faults disk.old.disk ≤ D.faults disk.new.disk }
    ensures fault { IsErrOf result DurableFault.DiskFault → HasRisen (D.faults disk.old.disk) (D.faults disk.new.disk) }
    ensures size { D.size disk.new.disk ≡ D.size disk.old.disk }
{
    disk.arm(Arm::Free);
    match read_cells(disk, page) {
        Ok(cells) => Ok(cells),
        Err(DiskError::Failed) => Err(DurableFault::DiskFault),
        Err(DiskError::NoMemory) => Err(DurableFault::NoMemory),
    }
}

/// Adds a page where it is named and isn't sound.
fn add_torn<D: Disk>(
    disk: &mut Scripted<D>,
    named: &PageList,
    page: u16,
    torn: &mut PageList,
) -> Result<(), DurableFault>
    requires can { CanLoad D.size D.keeps D.reads disk.old }
    requires page { IsPage page }
    ensures torn { OnOk result (torn.new ≡ torn.old ++ (if contains page named.now && not (is_sound (page_cells (reads_of D.reads disk.old) page)) then page ∷ [] else [])) }
    ensures same { OnOk result (reads_of D.reads disk.new ≡ reads_of D.reads disk.old) }
    ensures can { OnOk result (CanLoad D.size D.keeps D.reads disk.new) }
    ensures later { D.faults disk.old.disk ≤ D.faults disk.new.disk }
    ensures fault { IsErrOf result DurableFault.DiskFault → HasRisen (D.faults disk.old.disk) (D.faults disk.new.disk) }
    ensures size { D.size disk.new.disk ≡ D.size disk.old.disk }
{
    if !names(named, page) {
        return Ok(());
    }
    let cells = cells_of(disk, page)?;
    if !is_sound(&cells) {
        torn.push(page)?;
    }
    Ok(())
}

/// The pages that an event names and that aren't sound, rising, of so many data pages.
fn torn<D: Disk>(
    alloc: Global,
    disk: &mut Scripted<D>,
    pages: u16,
    named: &PageList,
) -> Result<PageList, DurableFault>
    requires can { CanLoad D.size D.keeps D.reads disk.old }
    requires few { pages ≤ 2048 }
    ensures torn { IfOk result (λ torn. torn ≡ torn_pages pages (kept_on pages (reads_of D.reads disk.old)) named.now) }
    ensures same { OnOk result (reads_of D.reads disk.new ≡ reads_of D.reads disk.old) }
    ensures can { OnOk result (CanLoad D.size D.keeps D.reads disk.new) }
    ensures later { D.faults disk.old.disk ≤ D.faults disk.new.disk }
    ensures fault { IsErrOf result DurableFault.DiskFault → HasRisen (D.faults disk.old.disk) (D.faults disk.new.disk) }
    ensures size { D.size disk.new.disk ≡ D.size disk.old.disk }
{
    let mut torn = ListOf::new(alloc);
    for page in 16..16 + pages {
        add_torn(disk, named, page, &mut torn)?;
    }
    Ok(torn)
}

impl<D: Disk> Durable<D> {
    /// How far the event came, with the pages that it names and left torn. It asks the disk for those where the event was stopped.
    pub fn reach(&mut self, alloc: Global) -> Result<Reach, DurableFault>
        requires known { self.old.progress.came ≢ Came.Unknown }
        ensures reach { IfOk result (λ r. r ≡ reach_of self.old.master.pages (reached_of D.reads self.old)) }
        ensures same { OnOk result (reached_of D.reads self.new ≡ reached_of D.reads self.old) }
        ensures later { D.faults self.old.disk.disk ≤ D.faults self.new.disk.disk }
        ensures fault { IsErrOf result DurableFault.DiskFault → HasRisen (D.faults self.old.disk.disk) (D.faults self.new.disk.disk) }
    {
        match self.progress.came {
            Came::Underway => Ok(Reach::End),
            Came::Failed => Ok(Reach::Fault {
                step: self.progress.steps,
            }),
            Came::Stopped => {
                let pages = self.master.pages;
                match torn(alloc, &mut self.disk, pages, &self.progress.named) {
                    Ok(torn) => Ok(Reach::Stop {
                        write: self.progress.writes,
                        step: self.progress.steps,
                        torn,
                    }),
                    Err(e) => {
                        self.progress.came = Came::Unknown;
                        Err(e)
                    }
                }
            }
            Came::Unknown => unreachable!(),
        }
    }
}
