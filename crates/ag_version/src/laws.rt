//! Laws of page values.
ghost use Rattle.std.specs.Prelude.{◌≡◌, ◌-◌, ◌+◌, ◌<◌, ◌≤◌, ℕ, List, false};
ghost use Rattle.ag_model.specs.declared.record.Record.{Record};
ghost use Rattle.ag_model.specs.Rows.{touches};
ghost use Rattle.ag_model.specs.Page.{value};
ghost use Rattle.ag_version.specs.Steps.{AreProper, IsAt};

/// A record that doesn't touch a page leaves its value, also a Commit or an Abort that doesn't list it.
pub fn untouched()
    ensures { (pages page n : ℕ) (log : List Record) (r : Record) → 16 ≤ page → page < 16 + pages → AreProper pages log → IsAt log n r
        → touches pages page r ≡ false → value pages log n page ≡ value pages log (n - 1) page }
{}
