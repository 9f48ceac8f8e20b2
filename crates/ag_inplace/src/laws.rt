//! Laws of pages that are edited in place.
ghost use Rattle.std.specs.Prelude.{◌≡◌, ℕ, List, true, length, replicate};
ghost use Rattle.std.specs.List.{AllByRecursion};
ghost use Rattle.ag_model.specs.declared.record.Record.{Record};
ghost use Rattle.ag_model.specs.declared.record.Record.TheVariants.{Commit, Abort, Trim};
ghost use Rattle.ag_model.specs.declared.value.Change.{Change};
ghost use Rattle.ag_model.specs.declared.value.PageValue.{PageValue};
ghost use Rattle.ag_model.specs.Page.{value};
ghost use Rattle.ag_page.specs.Image.{image, marks};
ghost use Rattle.ag_page.specs.Spelling.{has_image, page_bytes, IsInRange};
ghost use Rattle.ag_version.specs.Edits.{after_change, after_commit, after_abort, after_trim};
ghost use Rattle.ag_version.specs.Steps.{record_of, IsDue};
ghost use Rattle.ag_inplace.specs.Spelled.{Spells, AreBelow};

/// Where a page had its value before a record of a proper log, which touches it, an image with the
/// edited value has the value of the page after that record.
pub fn redone()
    ensures change { (pages lsn txn key : ℕ) (log : List Record) (change : Change) (v : PageValue) (image : List (List ℕ))
        → IsDue pages log lsn (record_of txn key change) v → Spells image (after_change lsn txn key change v) → Spells image (value pages log lsn v.page) }
    ensures commit { (pages lsn txn : ℕ) (listed : List ℕ) (log : List Record) (v : PageValue) (image : List (List ℕ))
        → IsDue pages log lsn (Commit txn listed) v → Spells image (after_commit lsn txn v) → Spells image (value pages log lsn v.page) }
    ensures abort { (pages lsn txn : ℕ) (listed : List ℕ) (log : List Record) (v : PageValue) (image : List (List ℕ))
        → IsDue pages log lsn (Abort txn listed) v → Spells image (after_abort lsn txn v) → Spells image (value pages log lsn v.page) }
    ensures trim { (pages lsn horizon : ℕ) (log : List Record) (v : PageValue) (image : List (List ℕ))
        → IsDue pages log lsn (Trim v.page horizon) v → Spells image (after_trim lsn horizon v) → Spells image (value pages log lsn v.page) }

    // The LSNs of the versions that stand there are below that of the record.
    ensures below { (pages lsn : ℕ) (log : List Record) (r : Record) (v : PageValue) → IsDue pages log lsn r v → AreBelow lsn v.versions }
{}

/// What an image with the bytes of a page value is.
pub fn spelled()
    ensures image { (mark : ℕ) (v : PageValue) → has_image v ≡ true → IsInRange v → Spells (image mark (page_bytes v)) v }
    ensures once { (image : List (List ℕ)) (v w : PageValue) → Spells image v → Spells image w → v ≡ w }

    // With one mark it is the image that is made of the value.
    ensures one_mark { (mark : ℕ) (sectors : List (List ℕ)) (v : PageValue) → length sectors ≡ 16 → AllByRecursion (λ s. length s ≡ 512) sectors
        → Spells sectors v → marks sectors ≡ replicate 16 mark → sectors ≡ image mark (page_bytes v) }
{}
