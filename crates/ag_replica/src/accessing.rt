//! The access to a page, by an act that can't go on without it.
ghost use Rattle.std.specs.Prelude.{◌≡◌, ◌≤◌, Bool, Ok, Some, None, true, false, is_some, IfOk, IfSome, OnOk, IsErrOf};
ghost use Rattle.ag_outside.specs.Counts.{HasRisen};
ghost use Rattle.ag_model.specs.Cells.{has_lost, is_lost, is_sound};
ghost use Rattle.ag_rules.specs.Replica.{image, is_reverting};
ghost use Rattle.ag_rules.specs.Access.{kind_of, refusal_of, access};
ghost use Rattle.ag_rules.specs.Plan.{Part};
ghost use Rattle.ag_pool.specs.View.{frame};
ghost use Rattle.ag_durable.specs.Views.{kept_of};
ghost use Rattle.ag_law_pages.specs.Images.{IsDataPage};
ghost use Rattle.ag_replica.specs.Ups.{IsUp, replica_of};
ghost use Rattle.ag_replica.specs.Reading.{OnlyReads};
ghost use Rattle.ag_replica.specs.Doing.{Does};
ghost use Rattle.ag_replica.specs.Accessing.{Opens, Refuses};

use crate::fault::ReplicaFault;
use crate::reading::read_in;
use crate::up::Up;
use crate::writing::note;
use ag_model::answer::{Cell, Refusal};
use ag_outside::disk::Disk;
use std::alloc::Global;

/// Whether a sector of an image is lost.
fn has_lost(cells: &[Cell; 16]) -> bool
    ensures { result ≡ has_lost cells.now }
{
    cells.iter().any(|cell| matches!(cell, Cell::Lost))
}

/// The kind of the row of a bad page, and its refusal.
fn kind_of(cells: &[Cell; 16], page: u16) -> (u8, Refusal)
    ensures kind { result.0 ≡ kind_of cells.now }
    ensures refusal { result.1 ≡ refusal_of cells.now page }
{
    if has_lost(cells) {
        (1, Refusal::Unreadable { page })
    } else {
        (3, Refusal::Torn { page })
    }
}

/// Notes a bad page, where the list has room, and makes it wait for its repair.
#[tactic(auto, using(crate::proofs::Quiet::risen_since))]
fn find_bad<D: Disk>(up: &mut Up<D>, page: u16) -> Result<Refusal, ReplicaFault>
    requires up { IsUp D.reads false up.old }
    requires page { IsDataPage up.old.durable.master.pages page }
    requires waits { (frame up.old.pool page).pending ≡ false }
    requires bad { is_sound (image (kept_of D.reads up.old.durable) page) ≡ false }
    ensures refuses { IfOk result (λ why. Refuses D.reads up.old page up.new why) }
    ensures later { OnOk result (D.faults up.old.durable.disk.disk ≤ D.faults up.new.durable.disk.disk) }
    ensures fault { IsErrOf result ReplicaFault.DiskFault → HasRisen (D.faults up.old.durable.disk.disk) (D.faults up.new.durable.disk.disk) }
{
    if !up.durable.suspects().can_note(page) {
        up.pool.pend(page);
        return Ok(Refusal::NotNoted { page });
    }
    let cells = up.durable.cells(page)?;
    let (kind, refusal) = kind_of(&cells, page);
    note(up, page, kind)?;
    up.pool.pend(page);
    Ok(refusal)
}

/// Accesses a page: its value is in memory then, or the answer is why it is refused. A page that is found bad is noted on the disk, as far as the
/// event's order lets it come, and waits for its repair.
#[tactic(auto, using(crate::proofs::Quiet::risen_since))]
pub fn access<D: Disk>(
    alloc: Global,
    up: &mut Up<D>,
    page: u16,
) -> Result<Option<Refusal>, ReplicaFault>
    requires up { IsUp D.reads false up.old }
    requires steady { is_reverting up.old.standing.state ≡ false }
    requires page { IsDataPage up.old.durable.master.pages page }
    ensures opens { result ≡ Ok None → Opens D.reads up.old page up.new }
    ensures refuses { IfOk result (λ r. IfSome r (λ why. Refuses D.reads up.old page up.new why)) }
    ensures later { OnOk result (D.faults up.old.durable.disk.disk ≤ D.faults up.new.durable.disk.disk) }
    ensures fault { IsErrOf result ReplicaFault.DiskFault → HasRisen (D.faults up.old.durable.disk.disk) (D.faults up.new.durable.disk.disk) }
{
    if up.pool.frame(page).pending {
        return Ok(Some(Refusal::Pending { page }));
    }
    if read_in(alloc, up, page)? {
        return Ok(None);
    }
    let refusal = find_bad(up, page)?;
    Ok(Some(refusal))
}
