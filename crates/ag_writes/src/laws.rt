//! Laws of writes that are performed one batch after the other.
ghost use Rattle.std.specs.Prelude.{◌≡◌, ℕ, List, ◌++◌};
ghost use Rattle.ag_model.specs.declared.event.Suffix.{Suffix};
ghost use Rattle.ag_rules.specs.Replica.{Kept};
ghost use Rattle.ag_rules.specs.Plan.{Plan, Batch, all_written};
ghost use Rattle.ag_rules.specs.Cut.{cut, disk_before};
ghost use Rattle.ag_writes.specs.Homes.{answer_with, reach_of};
ghost use Rattle.ag_writes.specs.Performing.{Progress, Reached, Through, StoppedIn, FailedAfter, after_batches, performed, with_reached};

/// An event's batches may be performed in parts, and after an end nothing more is written.
pub fn performed_in_parts()
    ensures parts { (r : Reached) (xs ys : List Batch) → after_batches r (xs ++ ys) ≡ after_batches (after_batches r xs) ys }
    ensures stopped { (write steps : ℕ) (named : List ℕ) (k : Kept) (ys : List Batch) → after_batches (StoppedIn write steps named k) ys ≡ StoppedIn write steps named k }
    ensures failed { (steps : ℕ) (k : Kept) (ys : List Batch) → after_batches (FailedAfter steps k) ys ≡ FailedAfter steps k }
{}

/// What performing all batches of a plan leaves is what its cut says; where all went through, all is written.
pub fn performed_is_cut()
    ensures cut { (suffix : Suffix) (p : Plan) → cut suffix p ≡ with_reached p (performed suffix p) }
    ensures answer { (suffix : Suffix) (p : Plan) → (cut suffix p).answer ≡ answer_with p.answer p.writer (reach_of p.before.config.pages (performed suffix p)) }
    ensures through { (suffix : Suffix) (p : Plan) (done : Progress) → performed suffix p ≡ Through done → done.kept ≡ all_written (disk_before p) p.writes }
{}
