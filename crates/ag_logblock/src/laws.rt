//! Laws of blocks.
ghost use Rattle.std.specs.Prelude.{◌≡◌, List, length, ℕ};
ghost use Rattle.ag_logblock.specs.declared.Head.{Head};
ghost use Rattle.ag_logblock.specs.Block.{block, sectors_for, HasBlock};
ghost use Rattle.ag_logblock.specs.Fitting.{payload_of};

/// Sectors are those of one head and one payload at most, which stands in them.
pub fn blocks()
    ensures apart { (h k : Head) (p q : List ℕ) → HasBlock h p → HasBlock k q → block h p ≡ block k q → (h ≡ k) × (p ≡ q) }
    ensures payload { (h : Head) (p : List ℕ) → HasBlock h p → payload_of (block h p) ≡ p }
    ensures sectors { (h : Head) (p : List ℕ) → HasBlock h p → length (block h p) ≡ sectors_for p }
{}
