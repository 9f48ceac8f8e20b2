//! The law that the row picked from a page is the row after a prefix of the log.
#![tactic(auto)]

ghost use Rattle.std.specs.Prelude.{◌≡◌, ◌≤◌, ℕ, List, length};
ghost use Rattle.ag_model.specs.declared.record.Record.{Record};
ghost use Rattle.ag_model.specs.Rows.{page_of, rows};
ghost use Rattle.ag_model.specs.Page.{pick, value};
ghost use Rattle.ag_version.specs.Steps.{AreProper};

/// The pick of a key at a snapshot that isn't below the horizon of its page is the row after so many
/// records, also where the page has gone further.
pub fn picks_are_rows()
    ensures { (pages n m key : ℕ) (log : List Record) → AreProper pages log → n ≤ m → m ≤ length log → (value pages log m (page_of pages key)).horizon ≤ n
        → pick (value pages log m (page_of pages key)) key n ≡ rows log n key }
{}
