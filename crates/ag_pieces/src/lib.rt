//! What a disk that follows an order leaves of a batch of pieces, each of which is one write of an event.
#![tactic(auto)]

ghost use Rattle.std.specs.Prelude.{◌≡◌, ◌+◌, ◌<◌, ℕ, List, [], length};
ghost use Rattle.ag_outside.specs.Calls.{Piece, TakesAll, FailsOnTheWay};
ghost use Rattle.ag_outside.specs.Scripts.{ScriptedView};
ghost use Rattle.ag_outside.specs.Shown.{did_of};
ghost use Rattle.ag_rules.specs.Plan.{Batch};
ghost use Rattle.ag_writes.specs.declared.order.Order.{Order};
ghost use Rattle.ag_writes.specs.declared.order.Order.TheVariants.{StopAt, FailAt};
ghost use Rattle.ag_writes.specs.Performing.{Progress, Through, FailedAfter, passed, stopped_in, by_order};
ghost use Rattle.ag_pieces.specs.Pieces.{IsAhead, BatchEnds, BatchPasses, further_by};

use ag_outside::disk::Disk;

/// A batch that failed was stopped in a write or had a call fail, as is still ordered, or else the disk below failed.
pub fn batch_ends<D: Disk>()
    ensures { (old new : ScriptedView D) (pieces : List Piece) → old.unsynced ≡ [] → IsAhead old.order old.writes old.calls
        → FailsOnTheWay (did_of D.keeps D.reads D.may_hold D.faults) old pieces new → BatchEnds D.keeps D.reads D.faults old pieces new new.why }
{}

/// After a batch that went through nothing is kept back, and what is ordered is so many writes and a sync nearer.
pub fn batch_passes<D: Disk>()
    ensures { (old new : ScriptedView D) (pieces : List Piece) → IsAhead old.order old.writes old.calls
        → TakesAll (did_of D.keeps D.reads D.may_hold D.faults) old pieces new → BatchPasses D.keeps D.faults old (length pieces) new }
{}

/// What comes of a batch of an event, by what is ordered before it and after it: these are the outcomes of such a disk.
pub fn batch_by_order()
    ensures passes { (o left : Order) (p : Progress) (b : Batch) → o ≡ further_by (length b) left → by_order o p b ≡ Through (passed left p b) }
    ensures stops { (o : Order) (w mask : ℕ) (p : Progress) (b : Batch) → o ≡ StopAt w mask → w < length b → by_order o p b ≡ stopped_in w mask p b }
    ensures fails { (o : Order) (c : ℕ) (p : Progress) (b : Batch) → o ≡ FailAt c → c < length b + 1 → by_order o p b ≡ FailedAfter p.steps p.kept }
{}
