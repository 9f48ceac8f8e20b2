//! Batches that are written one after the other.
ghost use Rattle.std.specs.Prelude.{◌≡◌, IsTrue, IfOk, OnOk};
ghost use Rattle.ag_writes.specs.Performing.{after_batches};
ghost use Rattle.ag_writes.specs.Homes.{reach_of, goes_on, CanPerform};

use crate::home::Keeps;
use crate::reach::Reach;
use crate::writes::Batch;

/// Writes batches, as far as the event's order lets it come.
pub fn perform<H: Keeps>(home: &mut H, batches: &[Batch]) -> Result<Reach, H::Fault>
    requires goes_on { IsTrue (goes_on (H.reached home.old)) }
    requires can { CanPerform H.reached H.can_write H.same home.old batches.now }
    ensures reached { OnOk result (H.reached home.new ≡ after_batches (H.reached home.old) batches.now) }
    ensures reach { IfOk result (λ r. r ≡ reach_of (H.pages home.new) (H.reached home.new)) }
    ensures pages { OnOk result (H.pages home.new ≡ H.pages home.old) }
    ensures same { OnOk result (H.same home.old home.new) }
{
    for batch in batches {
        match home.write(batch)? {
            Reach::End => {}
            end => return Ok(end),
        }
    }
    Ok(Reach::End)
}
