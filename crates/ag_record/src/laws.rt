//! Laws of the bytes of records.
ghost use Rattle.std.specs.Prelude.{◌≡◌, ◌++◌, ℕ, List, length};
ghost use Rattle.ag_model.specs.Sizes.{record_size, records_size};
ghost use Rattle.ag_model.specs.declared.record.Record.{Record};
ghost use Rattle.ag_record.specs.Spelling.{spelling, records_spelling, HasSpelling, HaveSpelling};

/// Each record has one spelling, and no spelling begins another one.
pub fn spellings()
    ensures apart { (r s : Record) (x y : List ℕ) → HasSpelling r → HasSpelling s → spelling r ++ x ≡ spelling s ++ y → (r ≡ s) × (x ≡ y) }
    ensures lists_apart { (rs ss : List Record) → HaveSpelling rs → HaveSpelling ss → records_spelling rs ≡ records_spelling ss → rs ≡ ss }
    ensures size { (r : Record) → HasSpelling r → length (spelling r) ≡ record_size r }
    ensures sizes { (rs : List Record) → HaveSpelling rs → length (records_spelling rs) ≡ records_size rs }
{}
