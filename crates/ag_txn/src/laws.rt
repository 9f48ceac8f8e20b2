//! Laws of the copies of pages: what transactions see of a page is the page of the log with its buffer.
ghost use Rattle.std.specs.Prelude.{◌≡◌, ◌+◌, ◌<◌, ◌≤◌, ◌++◌, ◌∷◌, [], ℕ, Bool, List, length, replicate, map, None, IsSome, unwrap_or};
ghost use Rattle.std.specs.List.{AllByRecursion};
ghost use Rattle.ag_model.specs.declared.event.Pair.{Pair};
ghost use Rattle.ag_model.specs.declared.record.Record.{Record};
ghost use Rattle.ag_model.specs.declared.record.Record.TheVariants.{Trim};
ghost use Rattle.ag_model.specs.declared.value.Change.{Change};
ghost use Rattle.ag_model.specs.declared.value.PageValue.{PageValue};
ghost use Rattle.ag_model.specs.Page.{value};
ghost use Rattle.ag_model.specs.Rows.{page_of};
ghost use Rattle.ag_rules.specs.CommitEvent.{end_record};
ghost use Rattle.ag_rules.specs.PutEvent.{record_of};
ghost use Rattle.ag_rules.specs.SetEvent.{records_of_set};
ghost use Rattle.ag_rules.specs.Replica.{Replica, effective, end, full_log, records};
ghost use Rattle.ag_txn.specs.Effective.{AreEffective, HaveCopiesFor};
ghost use Rattle.ag_txn.specs.View.{TxnsView, Copies, copy_of, with_copy, copies_after_all, seen};
ghost use Rattle.ag_version.specs.Steps.{AreProper};

/// What transactions see of a page is the effective page of the rules, where the hardened page is handed in.
pub fn pages_seen()
    ensures { (t : TxnsView) (r : Replica) (page : ℕ) → end r ≡ t.end → r.leading.buffer ≡ t.buffer → AreEffective t.pages (records r) t.buffer t.copies → AreProper t.pages (full_log r)
        → 16 ≤ page → page < 16 + t.pages → seen t (value t.pages (records r) t.end page) ≡ effective t.pages r page }
{}

/// What keeps the copies the pages of the log with its buffer.
pub fn stay_effective()
    // At first there is no copy, and the buffer is empty; so it may be again, where the buffer is empty.
    ensures opening { (pages : ℕ) (log : List Record) → AreEffective pages log [] (replicate pages None) }
    ensures forgotten { (pages : ℕ) (log : List Record) (copies : Copies) → length copies ≡ pages → AreEffective pages log [] (map (λ c. None) copies) }

    // A copy is kept of a page as transactions see it.
    ensures copied { (pages page : ℕ) (log buffer : List Record) (copies : Copies) → AreEffective pages log buffer copies → AreProper pages (log ++ buffer) → 16 ≤ page → page < 16 + pages
        → AreEffective pages log buffer (with_copy page (unwrap_or (copy_of copies page) (value pages log (length log) page)) copies) }

    // Records go into the buffer, where each page that they touch has a copy.
    ensures added { (pages : ℕ) (log buffer new : List Record) (copies : Copies) → AreEffective pages log buffer copies → AreProper pages (log ++ (buffer ++ new))
        → HaveCopiesFor pages copies new
        → AreEffective pages log (buffer ++ new) (copies_after_all pages (length log + length buffer + 1) new copies) }

    // The buffer is hardened.
    ensures hardened { (pages : ℕ) (log buffer : List Record) (copies : Copies) → AreEffective pages log buffer copies → AreEffective pages (log ++ buffer) [] copies }
{}

/// Which records touch no page without a copy.
pub fn copies_had()
    // A change or a Trim of a page, once a copy of it is kept.
    ensures changed { (pages txn key : ℕ) (change : Change) (w : PageValue) (copies : Copies) → 0 < pages → length copies ≡ pages
        → HaveCopiesFor pages (with_copy (page_of pages key) w copies) (record_of txn key change ∷ []) }
    ensures trimmed { (pages page horizon : ℕ) (w : PageValue) (copies : Copies) → 16 ≤ page → page < 16 + pages → length copies ≡ pages
        → HaveCopiesFor pages (with_copy page w copies) (Trim page horizon ∷ []) }

    // A whole transaction, where the page of each pair has a copy, as `may_set` leaves it.
    ensures set { (pages txn : ℕ) (pairs : List Pair) (copies : Copies) → 0 < pages → AllByRecursion (λ pair. IsSome (copy_of copies (page_of pages pair.key))) pairs
        → HaveCopiesFor pages copies (records_of_set pages txn pairs) }

    // The end of a transaction, where each page that it lists has a copy.
    ensures ended { (pages txn : ℕ) (commits : Bool) (listed : List ℕ) (copies : Copies) → AllByRecursion (λ p. IsSome (copy_of copies p)) listed
        → HaveCopiesFor pages copies (end_record commits txn listed ∷ []) }
{}
