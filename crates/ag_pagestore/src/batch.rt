//! Writing pages in batches.
ghost use Rattle.std.specs.Prelude.{◌≡◌, ◌≤◌, ◌+◌, ◌∷◌, length, IsTrue, IfOk, OnOk, IsErrOf};
ghost use Rattle.std.specs.List.{AllByRecursion};
ghost use Rattle.ag_outside.specs.Calls.{Leads, IsReadOnly, TakesAll, FailsOnTheWay};
ghost use Rattle.ag_outside.specs.Counts.{HasRisen};
ghost use Rattle.ag_outside.specs.Disks.{put_all, MayAdd, SameImages, Only, Elapses, HasCause};
ghost use Rattle.ag_outside.specs.Moments.{LeavesOnly};
ghost use Rattle.ag_model.specs.Cells.{mark_after};
ghost use Rattle.ag_pagestore.specs.Places.{place, page_cells};
ghost use Rattle.ag_pagestore.specs.Found.{ReadsUntilFault};
ghost use Rattle.ag_pagestore.specs.Batches.{RisesFrom, IsWhole, IsBatch, IsWritten, AreNext, pieces, written, went, WritesUntilFault};
ghost use Rattle.ag_pagestore.specs.Moments.{IsPartOf, IsOldOrNew};

use crate::fault::PageWriteFault;
use crate::marks::{mark_after, with_mark};
use crate::sectors::{place, read_sectors};
use ag_outside::disk::{Disk, DiskError};
use ag_page::Image;

/// An image, and the page that it is written to.
#[derive(Clone, Copy, Debug, PartialEq, Eq)]
pub struct PageWrite {
    pub page: u16,
    pub image: Image,
}

/// The mark of the next write over each page.
fn next_marks<D: Disk>(disk: &mut D, pages: &[PageWrite]) -> Result<[u8; 8], DiskError>
    requires few { length pages.now ≤ 8 }
    requires rises { RisesFrom 16 pages.now }
    requires places { 33088 ≤ D.size disk.old }
    ensures marks { IfOk result (λ marks. IsTrue (D.keeps disk.old) → AreNext (D.reads disk.old) pages.now marks) }
    ensures calls { IsReadOnly D.did disk.old disk.new }
    ensures broken { IsErrOf result DiskError.Failed → ReadsUntilFault D.did disk.old disk.new }
    ensures reads { D.reads disk.new ≡ D.reads disk.old }
    ensures crash { SameImages (D.may_hold disk.old) (D.may_hold disk.new) }
    ensures time { Elapses (D.traced disk.old) (D.moment disk.old) (D.moment disk.new) (D.left_since disk.old) (D.left_since disk.new) (D.may_hold disk.new) }
    ensures cause { HasCause (D.faults disk.old) (D.faults disk.new) result }
    ensures size { D.size disk.new ≡ D.size disk.old }
    ensures keeps { D.keeps disk.new ≡ D.keeps disk.old }
    ensures traced { D.traced disk.new ≡ D.traced disk.old }
{
    let mut marks = [0; 8];
    for (i, write) in pages.iter().enumerate() {
        marks[i] = next_mark(disk, write.page)?;
    }
    Ok(marks)
}

/// The mark of the next write over a page.
fn next_mark<D: Disk>(disk: &mut D, page: u16) -> Result<u8, DiskError>
    requires { place page + 16 ≤ D.size disk.old }
    ensures mark { IfOk result (λ mark. IsTrue (D.keeps disk.old) → mark ≡ mark_after (page_cells (D.reads disk.old) page)) }
    ensures calls { IsReadOnly D.did disk.old disk.new }
    ensures broken { IsErrOf result DiskError.Failed → ReadsUntilFault D.did disk.old disk.new }
    ensures reads { D.reads disk.new ≡ D.reads disk.old }
    ensures crash { SameImages (D.may_hold disk.old) (D.may_hold disk.new) }
    ensures time { Elapses (D.traced disk.old) (D.moment disk.old) (D.moment disk.new) (D.left_since disk.old) (D.left_since disk.new) (D.may_hold disk.new) }
    ensures cause { HasCause (D.faults disk.old) (D.faults disk.new) result }
    ensures size { D.size disk.new ≡ D.size disk.old }
    ensures keeps { D.keeps disk.new ≡ D.keeps disk.old }
    ensures traced { D.traced disk.new ≡ D.traced disk.old }
{
    let mut image = [[0; 512]; 16];
    let cells = read_sectors(disk, page, &mut image)?;
    Ok(mark_after(&cells))
}

/// Writes each page with its mark.
fn write_pages<D: Disk>(disk: &mut D, pages: &[PageWrite], marks: &[u8; 8]) -> Result<(), DiskError>
    requires few { length pages.now ≤ 8 }
    requires rises { RisesFrom 16 pages.now }
    requires places { 33088 ≤ D.size disk.old }
    requires marks { IsTrue (D.keeps disk.old) → AreNext (D.reads disk.old) pages.now marks.now }
    ensures whole { OnOk result (AllByRecursion IsWhole pages.now) }
    ensures written { OnOk result (IsTrue (D.keeps disk.old) → D.reads disk.new ≡ put_all (D.reads disk.old) (written (D.reads disk.old) pages.now)) }
    ensures calls { OnOk result (IsTrue (D.keeps disk.old) → Leads D.did disk.old (went (pieces (D.reads disk.old) pages.now)) disk.new) }
    ensures broken { IsErrOf result DiskError.Failed → IsTrue (D.keeps disk.old) → WritesUntilFault D.did disk.old (pieces (D.reads disk.old) pages.now) disk.new }
    ensures crash { OnOk result (IsTrue (D.keeps disk.old) → MayAdd (written (D.reads disk.old) pages.now) (D.may_hold disk.old) (D.may_hold disk.new)) }
    ensures any_moment { LeavesOnly D.moment D.left_since disk.old disk.new (IsPartOf (D.may_hold disk.old) (D.reads disk.old) pages.now) }
    ensures cause { HasCause (D.faults disk.old) (D.faults disk.new) result }
    ensures size { D.size disk.new ≡ D.size disk.old }
    ensures keeps { D.keeps disk.new ≡ D.keeps disk.old }
    ensures traced { D.traced disk.new ≡ D.traced disk.old }
{
    for (i, write) in pages.iter().enumerate() {
        let image = with_mark(&write.image, marks[i]);
        disk.write(place(write.page), &image)?;
    }
    Ok(())
}

/// Writes each page with its next mark, and syncs.
fn write_and_sync<D: Disk>(disk: &mut D, pages: &[PageWrite]) -> Result<(), DiskError>
    requires few { length pages.now ≤ 8 }
    requires rises { RisesFrom 16 pages.now }
    requires places { 33088 ≤ D.size disk.old }
    ensures whole { OnOk result (AllByRecursion IsWhole pages.now) }
    ensures written { OnOk result (IsTrue (D.keeps disk.old) → D.reads disk.new ≡ put_all (D.reads disk.old) (written (D.reads disk.old) pages.now)) }
    ensures durable { OnOk result (IsTrue (D.keeps disk.old) → Only (D.reads disk.new) (D.may_hold disk.new)) }
    ensures calls { OnOk result (IsTrue (D.keeps disk.old) → TakesAll D.did disk.old (pieces (D.reads disk.old) pages.now) disk.new) }
    ensures broken { IsErrOf result DiskError.Failed → IsTrue (D.keeps disk.old) → FailsOnTheWay D.did disk.old (pieces (D.reads disk.old) pages.now) disk.new }
    ensures any_moment { LeavesOnly D.moment D.left_since disk.old disk.new (IsPartOf (D.may_hold disk.old) (D.reads disk.old) pages.now) }
    ensures cause { HasCause (D.faults disk.old) (D.faults disk.new) result }
    ensures size { D.size disk.new ≡ D.size disk.old }
    ensures keeps { D.keeps disk.new ≡ D.keeps disk.old }
    ensures traced { D.traced disk.new ≡ D.traced disk.old }
{
    let marks = next_marks(disk, pages)?;
    write_pages(disk, pages, &marks)?;
    disk.sync()?;
    Ok(())
}

/// Writes 1 to 8 pages, each in one call and with the mark after the one that the disk has there, and syncs once.
/// The pages are from 16 to 2,063, and rise.
pub fn write_batch<D: Disk>(disk: &mut D, pages: &[PageWrite]) -> Result<(), PageWriteFault>
    requires batch { IsBatch pages.now }
    requires places { 33088 ≤ D.size disk.old }

    // After `Ok` each page has the new image with the new mark, and each other sector what it had; a crash leaves that.
    ensures written { OnOk result (IsTrue (D.keeps disk.old) → IsWritten (D.reads disk.old) pages.now (D.reads disk.new)) }
    ensures sectors { OnOk result (IsTrue (D.keeps disk.old) → D.reads disk.new ≡ put_all (D.reads disk.old) (written (D.reads disk.old) pages.now)) }
    ensures durable { OnOk result (IsTrue (D.keeps disk.old) → Only (D.reads disk.new) (D.may_hold disk.new)) }

    // Where nothing was unsynced, a crash at any moment leaves each page with its old image, with the new one, or with one
    // that isn't sound, and each other sector with what it had.
    ensures any_moment { Only (D.reads disk.old) (D.may_hold disk.old) → LeavesOnly D.moment D.left_since disk.old disk.new (IsOldOrNew (D.reads disk.old) pages.now) }

    // The disk took each page in one call, and one sync; or it failed on the way.
    ensures calls { OnOk result (IsTrue (D.keeps disk.old) → TakesAll D.did disk.old (pieces (D.reads disk.old) pages.now) disk.new) }
    ensures broken { IsErrOf result PageWriteFault.DiskFault → IsTrue (D.keeps disk.old) → FailsOnTheWay D.did disk.old (pieces (D.reads disk.old) pages.now) disk.new }

    ensures fault { IsErrOf result PageWriteFault.DiskFault → HasRisen (D.faults disk.old) (D.faults disk.new) }
    ensures faults { D.faults disk.old ≤ D.faults disk.new }
    ensures size { D.size disk.new ≡ D.size disk.old }
    ensures keeps { D.keeps disk.new ≡ D.keeps disk.old }
    ensures traced { D.traced disk.new ≡ D.traced disk.old }
{
    Ok(write_and_sync(disk, pages)?)
}
