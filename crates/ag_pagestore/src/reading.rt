//! Reading a page.
ghost use Rattle.std.specs.Prelude.{◌≡◌, ◌↔◌, ◌≤◌, [], IsTrue, IsOk, IfOk, OnOk, IsErrOf};
ghost use Rattle.ag_outside.specs.Calls.{IsReadOnly, FailsOnTheWay};
ghost use Rattle.ag_outside.specs.Counts.{HasRisen};
ghost use Rattle.ag_outside.specs.Disks.{SameImages, Elapses};
ghost use Rattle.ag_page.specs.Home.{readable};
ghost use Rattle.ag_pagestore.specs.Places.{IsPage, image_of, page_cells};
ghost use Rattle.ag_pagestore.specs.Found.{IsReadAs};

use crate::fault::PageReadFault;
use crate::marks::{has_lost, is_sound};
use crate::sectors::read_sectors;
use ag_model::answer::Cell;
use ag_outside::disk::{Disk, DiskError};
use ag_page::Image;

/// Reads the image of a page, from 16 to 2,063. At `Ok` the buffer has it, and it is sound.
pub fn read<D: Disk>(disk: &mut D, page: u16, into: &mut Image) -> Result<(), PageReadFault>
    requires page { IsPage page }
    requires places { 33088 ≤ D.size disk.old }

    // It is unreadable exactly where a sector is lost, and else torn exactly where the marks differ.
    ensures found { IsTrue (D.keeps disk.old) → IsReadAs (image_of (D.reads disk.old) page) result }
    ensures image { OnOk result (IsTrue (D.keeps disk.old) → image_of (D.reads disk.old) page ≡ readable into.new) }

    // It reads, and nothing else. No sector and no image changes.
    ensures calls { IsReadOnly D.did disk.old disk.new }
    ensures broken { IsErrOf result PageReadFault.DiskFault → FailsOnTheWay D.did disk.old [] disk.new }
    ensures reads { D.reads disk.new ≡ D.reads disk.old }
    ensures crash { SameImages (D.may_hold disk.old) (D.may_hold disk.new) }
    ensures time { Elapses (D.traced disk.old) (D.moment disk.old) (D.moment disk.new) (D.left_since disk.old) (D.left_since disk.new) (D.may_hold disk.new) }

    ensures fault { IsErrOf result PageReadFault.DiskFault → HasRisen (D.faults disk.old) (D.faults disk.new) }
    ensures faults { D.faults disk.old ≤ D.faults disk.new }
    ensures size { D.size disk.new ≡ D.size disk.old }
    ensures keeps { D.keeps disk.new ≡ D.keeps disk.old }
    ensures traced { D.traced disk.new ≡ D.traced disk.old }
{
    let cells = read_sectors(disk, page, into)?;
    if has_lost(&cells) {
        Err(PageReadFault::Unreadable)
    } else if is_sound(&cells) {
        Ok(())
    } else {
        Err(PageReadFault::Torn)
    }
}

/// Reads the cells of the image of a page, from 16 to 2,063.
pub fn read_cells<D: Disk>(disk: &mut D, page: u16) -> Result<[Cell; 16], DiskError>
    requires page { IsPage page }
    requires places { 33088 ≤ D.size disk.old }
    ensures cells { IfOk result (λ cells. IsTrue (D.keeps disk.old) → cells ≡ page_cells (D.reads disk.old) page) }

    // It reads, and nothing else. No sector and no image changes.
    ensures calls { IsReadOnly D.did disk.old disk.new }
    ensures broken { IsErrOf result DiskError.Failed → FailsOnTheWay D.did disk.old [] disk.new }
    ensures reads { D.reads disk.new ≡ D.reads disk.old }
    ensures crash { SameImages (D.may_hold disk.old) (D.may_hold disk.new) }
    ensures time { Elapses (D.traced disk.old) (D.moment disk.old) (D.moment disk.new) (D.left_since disk.old) (D.left_since disk.new) (D.may_hold disk.new) }

    ensures fault { IsErrOf result DiskError.Failed → HasRisen (D.faults disk.old) (D.faults disk.new) }
    ensures faults { D.faults disk.old ≤ D.faults disk.new }
    ensures size { D.size disk.new ≡ D.size disk.old }
    ensures keeps { D.keeps disk.new ≡ D.keeps disk.old }
    ensures traced { D.traced disk.new ≡ D.traced disk.old }
{
    let mut image = [[0; 512]; 16];
    Ok(read_sectors(disk, page, &mut image)?)
}
