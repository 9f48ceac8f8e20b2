//! The 16 sectors of a page, read one by one.
ghost use Rattle.std.specs.Prelude.{◌≡◌, ◌+◌, ◌<◌, ◌≤◌, IsTrue, IfOk, IsErrOf};
ghost use Rattle.ag_outside.specs.Calls.{IsReadOnly};
ghost use Rattle.ag_outside.specs.Disks.{SameImages, Elapses, HasCause};
ghost use Rattle.ag_pagestore.specs.Places.{place, image_of};
ghost use Rattle.ag_pagestore.specs.Found.{IsSector, IsFound, ReadsUntilFault};

use ag_model::answer::Cell;
use ag_outside::disk::{Disk, DiskError, Found};
use ag_page::Image;

/// The first sector of a page.
pub(crate) fn place(page: u16) -> u32
    ensures { result ≡ place page }
{
    64 + 16 * u32::from(page)
}

/// Reads a sector into the buffer, and gives its cell.
fn read_sector<D: Disk>(disk: &mut D, at: u32, into: &mut [u8; 512]) -> Result<Cell, DiskError>
    requires { at < D.size disk.old }
    ensures found { IfOk result (λ cell. IsTrue (D.keeps disk.old) → IsSector (D.reads disk.old at) cell into.new) }
    ensures calls { IsReadOnly D.did disk.old disk.new }
    ensures broken { IsErrOf result DiskError.Failed → ReadsUntilFault D.did disk.old disk.new }
    ensures reads { D.reads disk.new ≡ D.reads disk.old }
    ensures crash { SameImages (D.may_hold disk.old) (D.may_hold disk.new) }
    ensures time { Elapses (D.traced disk.old) (D.moment disk.old) (D.moment disk.new) (D.left_since disk.old) (D.left_since disk.new) (D.may_hold disk.new) }
    ensures cause { HasCause (D.faults disk.old) (D.faults disk.new) result }
    ensures size { D.size disk.new ≡ D.size disk.old }
    ensures keeps { D.keeps disk.new ≡ D.keeps disk.old }
    ensures traced { D.traced disk.new ≡ D.traced disk.old }
{
    match disk.read(at, into)? {
        Found::Bytes => Ok(Cell::Mark(into[511])),
        Found::Lost => Ok(Cell::Lost),
    }
}

/// Reads the sectors of a page into the buffer, and gives their cells.
pub(crate) fn read_sectors<D: Disk>(
    disk: &mut D,
    page: u16,
    into: &mut Image,
) -> Result<[Cell; 16], DiskError>
    requires { place page + 16 ≤ D.size disk.old }
    ensures found { IfOk result (λ cells. IsTrue (D.keeps disk.old) → IsFound (image_of (D.reads disk.old) page) cells into.new) }
    ensures calls { IsReadOnly D.did disk.old disk.new }
    ensures broken { IsErrOf result DiskError.Failed → ReadsUntilFault D.did disk.old disk.new }
    ensures reads { D.reads disk.new ≡ D.reads disk.old }
    ensures crash { SameImages (D.may_hold disk.old) (D.may_hold disk.new) }
    ensures time { Elapses (D.traced disk.old) (D.moment disk.old) (D.moment disk.new) (D.left_since disk.old) (D.left_since disk.new) (D.may_hold disk.new) }
    ensures cause { HasCause (D.faults disk.old) (D.faults disk.new) result }
    ensures size { D.size disk.new ≡ D.size disk.old }
    ensures keeps { D.keeps disk.new ≡ D.keeps disk.old }
    ensures traced { D.traced disk.new ≡ D.traced disk.old }
{
    let first = place(page);
    let mut cells = [Cell::Lost; 16];
    for i in 0..16 {
        cells[i] = read_sector(disk, first + i as u32, &mut into[i])?;
    }
    Ok(cells)
}
