//! Rows, values and marks of pages.
ghost use Rattle.std.specs.Prelude.{◌≡◌, ◌-◌, ◌≤◌, [], true, false, get_or, Err, IfOk, IfErr, OnOk, OnErr, IsErrOf};
ghost use Rattle.ag_model.specs.declared.value.PageValue.{PageValue as PageValueOf};
ghost use Rattle.ag_model.specs.Page.{pick, value};
ghost use Rattle.ag_model.specs.Rows.{page_of, rows, stripe_of};
ghost use Rattle.ag_outside.specs.Counts.{HasRisen};
ghost use Rattle.ag_outside.specs.Shown.{reads_of};
ghost use Rattle.ag_logstore.specs.Stored.{log_end};
ghost use Rattle.ag_stripe.specs.Known.Known.{Value};
ghost use Rattle.ag_kept.specs.Standing.{IsAtHome};
ghost use Rattle.ag_pagestore.specs.Places.{IsPage, page_cells};
ghost use Rattle.ag_pages.specs.Reading.{OnlyReadsIn};
ghost use Rattle.ag_pages.specs.Views.{is_page, known_of};
ghost use Rattle.ag_store.specs.Asking.{IsTooOldBy, LeavesSound};
ghost use Rattle.ag_store.specs.Redoing.{ShowsSame};
ghost use Rattle.ag_store.specs.Standing.{IsDataPage, told_on};
ghost use Rattle.ag_store.specs.declared.fault.ReadFault.TheVariants.{Gave};

use crate::fault::ReadFault;
use crate::redoing::fault_of_read;
use crate::store::Store;
use ag_kept::KeptFault;
use ag_law_picks::picks_are_rows;
use ag_model::answer::Cell;
use ag_model::value::{PageValue, Row};
use ag_outside::disk::{Disk, DiskError};
use ag_outside::order::Arm;
use ag_outside::scripted::Scripted;
use ag_pages::Pages;
use ag_pagestore::read_cells;
use ag_stripe::StripeFault;

/// The row of a key at a snapshot, by the value of its page.
fn row_by<D: Disk>(
    pages: &mut Pages,
    disk: &mut Scripted<D>,
    key: u32,
    snapshot: u64,
) -> Result<Row, ReadFault>
    requires place { log_end ≤ D.size disk.old.disk }
    requires home { IsAtHome D.keeps D.reads disk.old }
    requires known { (v : PageValueOf) × (known_of (told_on (reads_of D.reads disk.old)) pages.old (page_of pages.old.count key) ≡ Value v) }
    ensures row { IfOk result (λ row. (v : PageValueOf) → known_of (told_on (reads_of D.reads disk.old)) pages.old (page_of pages.old.count key) ≡ Value v →
        (v.horizon ≤ snapshot) × (row ≡ pick v key snapshot)) }
    ensures too_old { IfErr result (λ e. (v : PageValueOf) → known_of (told_on (reads_of D.reads disk.old)) pages.old (page_of pages.old.count key) ≡ Value v → IsTooOldBy snapshot v.horizon e) }
    ensures pages { OnlyReadsIn (told_on (reads_of D.reads disk.old)) pages.old pages.new }
    ensures disk { ShowsSame D.keeps D.reads D.may_hold disk.old disk.new }
    ensures later { D.faults disk.old.disk ≤ D.faults disk.new.disk }
    ensures size { D.size disk.new.disk ≡ D.size disk.old.disk }
    ensures fault { result ≡ Err (Gave KeptFault.DiskFault) → HasRisen (D.faults disk.old.disk) (D.faults disk.new.disk) }
{
    disk.arm(Arm::Free);
    match pages.row_at(disk, key, snapshot) {
        Ok(row) => Ok(row),
        Err(StripeFault::TooOld { snapshot, horizon }) => {
            Err(ReadFault::TooOld { snapshot, horizon })
        }
        Err(StripeFault::Home) => Err(ReadFault::Gave {
            up: fault_of_read(disk.why()),
        }),
        Err(StripeFault::NoMemory) => Err(ReadFault::Gave {
            up: KeptFault::NoMemory,
        }),
        Err(StripeFault::Bad { .. }) => unreachable!(),
        Err(StripeFault::Unlawful { .. }) => unreachable!(),
        Err(StripeFault::Pending { .. }) => unreachable!(),
    }
}

/// The value of a page.
fn value_by<D: Disk>(
    pages: &mut Pages,
    disk: &mut Scripted<D>,
    page: u16,
) -> Result<PageValue, KeptFault>
    requires place { log_end ≤ D.size disk.old.disk }
    requires home { IsAtHome D.keeps D.reads disk.old }
    requires page { is_page pages.old page ≡ true }
    requires known { (v : PageValueOf) × (known_of (told_on (reads_of D.reads disk.old)) pages.old page ≡ Value v) }
    ensures value { IfOk result (λ v. known_of (told_on (reads_of D.reads disk.old)) pages.old page ≡ Value v) }
    ensures pages { OnlyReadsIn (told_on (reads_of D.reads disk.old)) pages.old pages.new }
    ensures disk { ShowsSame D.keeps D.reads D.may_hold disk.old disk.new }
    ensures later { D.faults disk.old.disk ≤ D.faults disk.new.disk }
    ensures size { D.size disk.new.disk ≡ D.size disk.old.disk }
    ensures fault { IsErrOf result KeptFault.DiskFault → HasRisen (D.faults disk.old.disk) (D.faults disk.new.disk) }
{
    disk.arm(Arm::Free);
    match pages.value_of(disk, page) {
        Ok(value) => Ok(value),
        Err(StripeFault::Home) => Err(fault_of_read(disk.why())),
        Err(StripeFault::NoMemory) => Err(KeptFault::NoMemory),
        Err(StripeFault::TooOld { .. }) => unreachable!(),
        Err(StripeFault::Bad { .. }) => unreachable!(),
        Err(StripeFault::Unlawful { .. }) => unreachable!(),
        Err(StripeFault::Pending { .. }) => unreachable!(),
    }
}

/// The cells of a page's image.
fn cells_on<D: Disk>(disk: &mut Scripted<D>, page: u16) -> Result<[Cell; 16], KeptFault>
    requires place { log_end ≤ D.size disk.old.disk }
    requires home { IsAtHome D.keeps D.reads disk.old }
    requires page { IsPage page }
    ensures cells { IfOk result (λ cells. cells ≡ page_cells (reads_of D.reads disk.old) page) }
    ensures disk { ShowsSame D.keeps D.reads D.may_hold disk.old disk.new }
    ensures later { D.faults disk.old.disk ≤ D.faults disk.new.disk }
    ensures size { D.size disk.new.disk ≡ D.size disk.old.disk }
    ensures fault { IsErrOf result KeptFault.DiskFault → HasRisen (D.faults disk.old.disk) (D.faults disk.new.disk) }
{
    disk.arm(Arm::Free);
    match read_cells(disk, page) {
        Ok(cells) => Ok(cells),
        Err(DiskError::Failed) => Err(KeptFault::DiskFault),
        Err(DiskError::NoMemory) => Err(KeptFault::NoMemory),
    }
}

impl<D: Disk> Store<D> {
    /// The row of a key at a snapshot, an LSN up to which the stripe of its page was redone. TooOld says that the snapshot is
    /// below the horizon of the page.
    pub fn row_at(&mut self, key: u32, snapshot: u64) -> Result<Row, ReadFault>
        requires sound { self.old.sound ≡ true }
        requires up { self.old.kept.loaded ≡ true }
        requires redone { snapshot ≤ get_or self.old.applied (stripe_of (page_of self.old.pages key)) 0 }
        ensures row { IfOk result (λ row. row ≡ rows self.old.kept.log.records snapshot key) }
        ensures young { OnOk result (
            (value self.old.pages self.old.kept.log.records (get_or self.old.applied (stripe_of (page_of self.old.pages key)) 0) (page_of self.old.pages key)).horizon ≤ snapshot) }
        ensures too_old { IfErr result (λ e. IsTooOldBy snapshot
            (value self.old.pages self.old.kept.log.records (get_or self.old.applied (stripe_of (page_of self.old.pages key)) 0) (page_of self.old.pages key)).horizon e) }
        ensures store { self.new ≡ record self.old { sound = self.new.sound; faults = self.new.faults } }
        ensures sound { OnOk result (self.new.sound ≡ true) }
        ensures left { IfErr result (LeavesSound self.new.sound) }
        ensures later { self.old.faults ≤ self.new.faults }
        ensures fault { result ≡ Err (Gave KeptFault.DiskFault) → HasRisen self.old.faults self.new.faults }
    {
        picks_are_rows();
        match self.memory.take() {
            None => unreachable!(),
            Some(mut memory) => {
                match row_by(&mut memory.pages, &mut self.disk, key, snapshot) {
                    Ok(row) => {
                        self.memory = Some(memory);
                        Ok(row)
                    }
                    Err(ReadFault::TooOld { snapshot, horizon }) => {
                        self.memory = Some(memory);
                        Err(ReadFault::TooOld { snapshot, horizon })
                    }
                    Err(ReadFault::Gave { up }) => {
                        self.memory = Some(memory);
                        self.is_sound = false;
                        Err(ReadFault::Gave { up })
                    }
                }
            }
        }
    }

    /// The value of a page where its stripe stands.
    pub fn value_of(&mut self, page: u16) -> Result<PageValue, KeptFault>
        requires sound { self.old.sound ≡ true }
        requires up { self.old.kept.loaded ≡ true }
        requires page { IsDataPage self.old.pages page }
        ensures value { IfOk result (λ v. v ≡ value self.old.pages self.old.kept.log.records (get_or self.old.applied (stripe_of page) 0) page) }
        ensures store { OnOk result (self.new ≡ record self.old { faults = self.new.faults }) }
        ensures later { OnOk result (self.old.faults ≤ self.new.faults) }
        ensures err { OnErr result (self.new.sound ≡ false) }
        ensures fault { IsErrOf result KeptFault.DiskFault → HasRisen self.old.faults self.new.faults }
    {
        match self.memory.take() {
            None => unreachable!(),
            Some(mut memory) => match value_by(&mut memory.pages, &mut self.disk, page) {
                Ok(value) => {
                    self.memory = Some(memory);
                    Ok(value)
                }
                Err(e) => {
                    self.is_sound = false;
                    Err(e)
                }
            },
        }
    }

    /// The cells of a page's image. The replica may be down.
    pub fn cells_of(&mut self, page: u16) -> Result<[Cell; 16], KeptFault>
        requires sound { self.old.sound ≡ true }
        requires page { IsDataPage self.old.pages page }
        ensures cells { IfOk result (λ cells. cells ≡ get_or self.old.cells (page - 16) []) }
        ensures store { OnOk result (self.new ≡ record self.old { faults = self.new.faults }) }
        ensures later { OnOk result (self.old.faults ≤ self.new.faults) }
        ensures err { OnErr result (self.new.sound ≡ false) }
        ensures fault { IsErrOf result KeptFault.DiskFault → HasRisen self.old.faults self.new.faults }
    {
        match cells_on(&mut self.disk, page) {
            Ok(cells) => Ok(cells),
            Err(e) => {
                self.is_sound = false;
                Err(e)
            }
        }
    }
}
