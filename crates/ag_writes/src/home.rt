//! A home of kept data.
ghost use Rattle.std.specs.Prelude.{◌≡◌, ℕ, IsTrue, IfOk, OnOk};
ghost use Rattle.ag_rules.specs.Plan.{Batch as RulesBatch};
ghost use Rattle.ag_writes.specs.Performing.{Reached, after_batch, begun, disk_of};
ghost use Rattle.ag_writes.specs.Homes.{reach_of, goes_on};

use crate::reach::Reach;
use crate::writes::Batch;
use ag_model::event::Suffix;

/// A home of kept data, in the middle of an event.
pub trait Keeps {
    /// What came of the event's writes so far, with the data that is kept.
    ghost reached: { Self → Reached };

    /// How many data pages it has.
    ghost pages: { Self → ℕ };

    /// Whether a batch can be written.
    ghost can_write: { Self → RulesBatch → Type 0 };

    /// What isn't kept is the same.
    ghost same: { Self → Self → Type 0 };

    /// Why a call gives up. Nothing is known then of what is kept.
    type Fault: Drop;

    /// An event begins with this suffix.
    fn begin(&mut self, suffix: &Suffix)
        ensures begun { reached self.new ≡ begun suffix.now (disk_of (reached self.old)) }
        ensures pages { pages self.new ≡ pages self.old }
        ensures same { same self.old self.new };

    /// Writes a batch and syncs it, as far as the event's order lets it come.
    fn write(&mut self, batch: &Batch) -> Result<Reach, Self::Fault>
        requires goes_on { IsTrue (goes_on (reached self.old)) }
        requires can { can_write self.old batch.now }
        ensures reached { OnOk result (reached self.new ≡ after_batch (reached self.old) batch.now) }
        ensures reach { IfOk result (λ r. r ≡ reach_of (pages self.new) (reached self.new)) }
        ensures pages { OnOk result (pages self.new ≡ pages self.old) }
        ensures same { OnOk result (same self.old self.new) };

    /// Nothing has changed yet.
    ghost same_at_first: { (h : Self) → same h h };

    /// One more call changes no more.
    ghost same_on: { (a b c : Self) → same a b → same b c → same a c };
}
