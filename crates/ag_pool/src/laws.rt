//! Laws of redo in a pool.
ghost use Rattle.std.specs.Prelude.{◌≡◌, ◌≢◌, ◌+◌, ◌<◌, ◌≤◌, ◌||◌, ◌&&◌, ℕ, List, length, max, true, false, is_some, Some};
ghost use Rattle.std.specs.List.{list_any};
ghost use Rattle.ag_model.specs.declared.record.Record.{Record};
ghost use Rattle.ag_model.specs.Blocks.{after_to};
ghost use Rattle.ag_model.specs.Page.{value};
ghost use Rattle.ag_model.specs.Rows.{stripe_of, touches};
ghost use Rattle.ag_version.specs.Steps.{AreProper};
ghost use Rattle.ag_pool.specs.declared.fault.PoolFault.TheVariants.{Full};
ghost use Rattle.ag_pool.specs.declared.frame.Frame.{Frame};
ghost use Rattle.ag_pool.specs.Frames.{mark_of};
ghost use Rattle.ag_pool.specs.Redo.{numbered_after, redone_by, redone_page, redone_stripe, HasNoRoom, IsFullBy, AreValuesFrom, AreFitting};
ghost use Rattle.ag_pool.specs.View.{PoolView, IsPool, is_page, frame, stripe_at};

/// What redo of a stripe makes of each frame, and of each stripe's LSNs.
pub fn frames()
    ensures frames { (x page : ℕ) (records : List Record) (v : PoolView) → IsPool v → is_page v page ≡ true
        → frame (redone_stripe x records v) page ≡ redone_page x v.pages (stripe_at v x).applied records page (frame v page) }
    ensures others { (x page : ℕ) (records : List Record) (v : PoolView) → IsPool v → is_page v page ≡ true → stripe_of page ≢ x → frame (redone_stripe x records v) page ≡ frame v page }
    ensures lsns { (x : ℕ) (records : List Record) (v : PoolView) → IsPool v → x < 16
        → stripe_at (redone_stripe x records v) x ≡ record (stripe_at v x) { applied = (stripe_at v x).applied + length records } }
    ensures other_lsns { (x y : ℕ) (records : List Record) (v : PoolView) → y ≢ x → stripe_at (redone_stripe x records v) y ≡ stripe_at v y }
    ensures pool { (x : ℕ) (records : List Record) (v : PoolView) → IsPool v → IsPool (redone_stripe x records v) }
{}

/// What redo does to the marks of a page: one that was read in is dirty where a record touches it, and nothing else changes.
pub fn marks()
    ensures marks { (pages page : ℕ) (entries : List (ℕ × Record)) (f : Frame)
        → mark_of (redone_by pages page entries f) ≡ record (mark_of f) { dirty = f.dirty || (is_some f.value && list_any (λ e. touches pages page e.1) entries) } }
    ensures kept { (pages page : ℕ) (entries : List (ℕ × Record)) (f : Frame) → is_some (redone_by pages page entries f).value ≡ is_some f.value }
    ensures untouched { (pages page : ℕ) (entries : List (ℕ × Record)) (f : Frame) → list_any (λ e. touches pages page e.1) entries ≡ false → redone_by pages page entries f ≡ f }
    ensures numbered { (pages page lsn : ℕ) (records : List Record) → list_any (λ e. touches pages page e.1) (numbered_after lsn records) ≡ list_any (touches pages page) records }
{}

/// Redo takes a page from its value after one record of a log to its value after a later one.
pub fn exact()
    ensures { (pages page low high : ℕ) (log records : List Record) (f : Frame) → AreProper pages log → 16 ≤ page → page < 16 + pages
        → low ≤ high → high ≤ length log → records ≡ after_to low high log → f.value ≡ Some (value pages log low page)
        → (redone_by pages page (numbered_after low records) f).value ≡ Some (value pages log high page) }
{}

/// A page that is ahead of the records stays ahead, and else comes to their end.
pub fn ahead()
    ensures { (pages page low high at : ℕ) (log records : List Record) (f : Frame) → AreProper pages log → 16 ≤ page → page < 16 + pages
        → low ≤ high → high ≤ length log → records ≡ after_to low high log → low ≤ at → f.value ≡ Some (value pages log at page)
        → (redone_by pages page (numbered_after low records) f).value ≡ Some (value pages log (max high at) page) }
{}

/// Records that don't touch a page leave its value.
pub fn untouched()
    ensures { (pages page low high : ℕ) (log : List Record) → AreProper pages log → 16 ≤ page → page < 16 + pages → low ≤ high → high ≤ length log
        → list_any (touches pages page) (after_to low high log) ≡ false → value pages log low page ≡ value pages log high page }
{}

/// A page that has a value of a log finds room for the log's records.
pub fn room()
    ensures page { (pages page low high at : ℕ) (log records : List Record) (f : Frame) → AreProper pages log → AreFitting pages log → 16 ≤ page → page < 16 + pages
        → low ≤ high → high ≤ length log → records ≡ after_to low high log → low ≤ at → f.value ≡ Some (value pages log at page)
        → HasNoRoom pages page low records f → ⊥ }
    ensures stripe { (x page high : ℕ) (log records : List Record) (v : PoolView) → AreProper v.pages log → AreFitting v.pages log → (stripe_at v x).applied ≤ high → high ≤ length log
        → records ≡ after_to (stripe_at v x).applied high log → AreValuesFrom x log v → IsFullBy x records v (Full page) → ⊥ }
{}

/// The values of a stripe's pages after redo of the records of a log that come next after its applied LSN.
pub fn values()
    // A page that was exact at the applied LSN is exact at the new one.
    ensures exact { (x page high : ℕ) (log records : List Record) (v : PoolView) → IsPool v → AreProper v.pages log → (stripe_at v x).applied ≤ high → high ≤ length log
        → records ≡ after_to (stripe_at v x).applied high log → is_page v page ≡ true → stripe_of page ≡ x → (frame v page).value ≡ Some (value v.pages log (stripe_at v x).applied page)
        → (frame (redone_stripe x records v) page).value ≡ Some (value v.pages log high page) }

    // Each page that was read in and had a value of the log, from the applied LSN on, has one from the new applied LSN on.
    ensures ahead { (x high : ℕ) (log records : List Record) (v : PoolView) → IsPool v → x < 16 → AreProper v.pages log → (stripe_at v x).applied ≤ high → high ≤ length log
        → records ≡ after_to (stripe_at v x).applied high log → AreValuesFrom x log v → AreValuesFrom x log (redone_stripe x records v) }
{}
