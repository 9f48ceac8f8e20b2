//! Pages that are read into memory.
ghost use Rattle.std.specs.Prelude.{◌≡◌, ◌<◌, ◌≤◌, ◌+◌, ◌==◌, ◌&&◌, Bool, Ok, Some, true, false, is_some, IfOk, OnOk, IsErrOf};
ghost use Rattle.ag_outside.specs.Counts.{HasRisen};
ghost use Rattle.ag_model.specs.Cells.{is_sound};
ghost use Rattle.ag_rules.specs.Replica.{image, is_reverting};
ghost use Rattle.ag_stripe.specs.Known.{in_image, is_zero_page, is_bare};
ghost use Rattle.ag_stripe.specs.Known.Known.{Value};
ghost use Rattle.ag_pool.specs.View.{frame};
ghost use Rattle.ag_durable.specs.Views.{kept_of};
ghost use Rattle.ag_law_pages.specs.Images.{IsDataPage};
ghost use Rattle.ag_replica.specs.Reading.{HasValue, OnlyReads, IsUpSo};

use crate::fault::ReplicaFault;
use crate::up::Up;
use ag_model::value::{NoMemory, PageValue};
use ag_outside::disk::Disk;
use ag_page::{Got, Image, PageFault, from_image};
use std::alloc::Global;

/// The value that an image says of the page at whose place it stands. An image of zeros is the empty page there.
fn value_in(alloc: Global, page: u16, image: &Image) -> Result<PageValue, NoMemory>
    requires { HasValue (in_image page image.now) }
    ensures { IfOk result (λ v. in_image page image.now ≡ Value v) }
{
    match from_image(alloc, image) {
        Ok(v) => Ok(PageValue {
            page,
            lsn: v.lsn,
            horizon: v.horizon,
            versions: v.versions,
        }),
        Err(PageFault::NoMemory) => Err(NoMemory),
        Err(PageFault::NotPage) => unreachable!(),
    }
}

/// Reads a page into memory, unless it is there. The answer is false where its image isn't sound. No call of the event is
/// counted for it.
pub fn read_in<D: Disk>(alloc: Global, up: &mut Up<D>, page: u16) -> Result<bool, ReplicaFault>
    requires up { IsUpSo D.reads up.old }
    requires steady { is_reverting up.old.standing.state ≡ false }
    requires page { IsDataPage up.old.durable.master.pages page }
    ensures only { OnOk result (OnlyReads D.reads up.old up.new) }
    ensures there { result ≡ Ok true → is_some (frame up.new.pool page).value ≡ true }
    ensures sound { IfOk result (λ there. there ≡ is_sound (image (kept_of D.reads up.old.durable) page)) }
    ensures later { OnOk result (D.faults up.old.durable.disk.disk ≤ D.faults up.new.durable.disk.disk) }
    ensures fault { IsErrOf result ReplicaFault.DiskFault → HasRisen (D.faults up.old.durable.disk.disk) (D.faults up.new.durable.disk.disk) }
{
    if up.pool.has(page) {
        return Ok(true);
    }
    let mut image = [[0; 512]; 16];
    match up.durable.fetch(page, &mut image)? {
        Got::Sound => {
            let value = value_in(alloc, page, &image)?;
            up.pool.keep(page, value);
            Ok(true)
        }
        Got::Torn | Got::Lost => Ok(false),
    }
}
