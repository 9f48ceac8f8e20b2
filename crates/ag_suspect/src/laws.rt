//! Laws of the rows of an image.
ghost use Rattle.std.specs.Prelude.{◌≡◌, ◌^◌, ◌+◌, ◌<◌, ◌≤◌, ◌⊎◌, ◌∷◌, [], ℕ, List, length, true, false, replicate};
ghost use Rattle.ag_model.specs.declared.answer.SuspectRow.{SuspectRow};
ghost use Rattle.ag_outside.specs.Disks.{Image, or_zeros, put, Only};
ghost use Rattle.ag_outside.specs.MemDisks.{image_of_zeros};
ghost use Rattle.ag_rules.specs.Plan.{has_row, can_note, noted};
ghost use Rattle.ag_suspect.specs.Rows.{row_spelling, rows_sector, suspects_on, HasRows};
ghost use Rattle.ag_suspect.specs.Places.{repaired, noted_sector, repaired_sector};
ghost use Rattle.ag_suspect.specs.Saving.{IsOldOrNew};

use ag_outside::disk::Disk;

/// An image that has some rows is read so: it has no others.
pub fn rows_are_read()
    ensures { (image : Image) (rows : List SuspectRow) → HasRows image rows → suspects_on image ≡ rows }
{}

/// An image that has some rows has the new ones once the sector of a note, or of a mark, is written. It is one of the sectors 1 to 63.
pub fn rows_stay()
    ensures noted { (image : Image) (rows : List SuspectRow) (page kind : ℕ) → HasRows image rows → 1 ≤ page → page < 2 ^ 16 → kind < 2 ^ 8 → can_note page rows ≡ true
        → HasRows (put image (noted_sector page kind rows)) (noted page kind rows) }
    ensures repaired { (image : Image) (rows : List SuspectRow) (page : ℕ) → HasRows image rows → has_row page rows ≡ true → HasRows (put image (repaired_sector page rows)) (repaired page rows) }
    ensures none { (rows : List SuspectRow) (page : ℕ) → has_row page rows ≡ false → repaired page rows ≡ rows }
    ensures noted_at { (rows : List SuspectRow) (page kind : ℕ) → length rows ≤ 1000 → can_note page rows ≡ true → (1 ≤ (noted_sector page kind rows).at) × ((noted_sector page kind rows).at < 64) }
    ensures repaired_at { (rows : List SuspectRow) (page : ℕ) → length rows ≤ 1000 → has_row page rows ≡ true → (1 ≤ (repaired_sector page rows).at) × ((repaired_sector page rows).at < 64) }
{}

/// The rows depend on sectors 1 to 63 alone.
pub fn same_rows()
    ensures read { (one two : Image) → ((at : ℕ) → 1 ≤ at → at < 64 → or_zeros (one at) ≡ or_zeros (two at)) → suspects_on one ≡ suspects_on two }
    ensures had { (one two : Image) (rows : List SuspectRow) → ((at : ℕ) → 1 ≤ at → at < 64 → or_zeros (one at) ≡ or_zeros (two at)) → HasRows one rows → HasRows two rows }
{}

/// A disk of zeros has no row.
pub fn blank_disks()
    ensures { HasRows image_of_zeros [] }
{}

/// Where nothing was unsynced, a crash while a page is noted or marked leaves the old rows or the new ones.
pub fn rows_old_or_new<D: Disk>()
    ensures noted { (disk : D) (left : Image) (rows : List SuspectRow) (page kind : ℕ) → Only (D.reads disk) (D.may_hold disk) → HasRows (D.reads disk) rows
        → 1 ≤ page → page < 2 ^ 16 → kind < 2 ^ 8 → can_note page rows ≡ true → IsOldOrNew (D.may_hold disk) (noted_sector page kind rows) left
        → HasRows left rows ⊎ HasRows left (noted page kind rows) }
    ensures repaired { (disk : D) (left : Image) (rows : List SuspectRow) (page : ℕ) → Only (D.reads disk) (D.may_hold disk) → HasRows (D.reads disk) rows
        → has_row page rows ≡ true → IsOldOrNew (D.may_hold disk) (repaired_sector page rows) left
        → HasRows left rows ⊎ HasRows left (repaired page rows) }
{}

/// A worked example: page 21 was noted once with kind 3, and isn't repaired.
pub fn example_row()
    ensures { row_spelling (record { page = 21; kind = 3; repaired = false; count = 1 }) ≡ 0 ∷ 21 ∷ 3 ∷ 0 ∷ 0 ∷ 0 ∷ 0 ∷ 1 ∷ replicate 24 0 }
{}
