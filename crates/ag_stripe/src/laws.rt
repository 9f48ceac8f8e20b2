//! Laws of stripes.
ghost use Rattle.std.specs.Prelude.{◌≡◌, ◌≤◌, ◌<◌, ◌+◌, ℕ, true, false, replicate};
ghost use Rattle.std.specs.List.{list_any};
ghost use Rattle.ag_model.specs.declared.record.Log.{Log};
ghost use Rattle.ag_model.specs.declared.value.PageValue.{PageValue};
ghost use Rattle.ag_model.specs.Blocks.{after_to};
ghost use Rattle.ag_model.specs.Page.{value};
ghost use Rattle.ag_model.specs.Prefixes.{end_of, IsBlockEnd, IsPrefix};
ghost use Rattle.ag_model.specs.Proper.{IsProper};
ghost use Rattle.ag_model.specs.Rows.{touches};
ghost use Rattle.ag_model.specs.Stripes.{StandsFor};
ghost use Rattle.ag_page.specs.Image.{image};
ghost use Rattle.ag_page.specs.Spelling.{has_image, page_bytes, IsInRange};
ghost use Rattle.ag_stripe.specs.Ahead.{IsAhead};
ghost use Rattle.ag_stripe.specs.Answers.{HasNoImage};
ghost use Rattle.ag_stripe.specs.Known.{Told, Known, empty_page, in_image, known};
ghost use Rattle.ag_stripe.specs.Known.Known.{Value, NotSound};
ghost use Rattle.ag_stripe.specs.Spelled.{AreSpelled};
ghost use Rattle.ag_stripe.specs.Standing.{standing};
ghost use Rattle.ag_stripe.specs.Tables.{Table, is_own};

/// What a sound image says of the page at whose place it stands.
pub fn images()
    // The image of a value of this page says this value, whatever its mark.
    ensures own { (mark : ℕ) (v : PageValue) → has_image v ≡ true → IsInRange v → in_image v.page (image mark (page_bytes v)) ≡ Value v }

    // An image of zeros says the empty page, at each place.
    ensures zeros { (mark page : ℕ) → in_image page (image mark (replicate 8176 0)) ≡ Value (empty_page page) }
{}

/// For which log a stripe stands.
pub fn stands()
    // Where the applied LSN is the end of the log, pages that may be ahead are those for which the stripe stands.
    ensures whole { (told : Told) (t : Table) (opening applied : ℕ) (log : Log) → IsBlockEnd log applied → end_of log ≤ applied
        → ((page : ℕ) → is_own t page ≡ true → (known told t page ≡ NotSound → ⊥) → IsAhead t.pages log applied page (known told t page))
        → StandsFor (standing told t opening applied) log }

    // What is a value of a prefix of a log is one of the log.
    ensures longer { (pages applied page : ℕ) (k : Known) (first log : Log) → IsPrefix first log → IsAhead pages first applied page k → IsAhead pages log applied page k }
{}

/// A page that has a value of a proper log, in which the values of all Puts have spellings, has an image.
pub fn have_images()
    ensures { (pages applied page : ℕ) (k : Known) (log : Log) → IsProper pages log → AreSpelled log.records → IsAhead pages log applied page k → HasNoImage k → ⊥ }
{}

/// What a stripe starts from.
pub fn starts()
    // A page whose image is as of an LSN, and which no record above it and up to the redo start touches, is as a stripe needs it from the redo start on.
    ensures from_image { (pages : ℕ) (log : Log) (redo page lsn : ℕ) → IsProper pages log → 16 ≤ page → page < 16 + pages → lsn ≤ end_of log → redo ≤ end_of log
        → list_any (touches pages page) (after_to lsn redo log.records) ≡ false → IsAhead pages log redo page (Value (value pages log.records lsn page)) }
{}
