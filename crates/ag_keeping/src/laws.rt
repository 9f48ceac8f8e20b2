//! Laws of writes on a disk that a replica keeps its data on: which pieces stand for which batch of the rules.
ghost use Rattle.std.specs.Prelude.{◌≡◌, ◌⊎◌, ◌+◌, ◌<◌, ◌≤◌, ◌^◌, ◌∷◌, [], ℕ, List, length, map, true};
ghost use Rattle.std.specs.List.{AllByRecursion};
ghost use Rattle.ag_model.specs.declared.record.Record.{Record};
ghost use Rattle.ag_outside.specs.Disks.{Image, put_all};
ghost use Rattle.ag_master.specs.Spelling.{spelling, HasSpelling};
ghost use Rattle.ag_logstore.specs.Stored.{sectors_of};
ghost use Rattle.ag_logstore.specs.Stores.{IsCurrent, Follows, sector_after};
ghost use Rattle.ag_kept.specs.Kept.{master_on};
ghost use Rattle.ag_kept.specs.Starting.{own_log, with_master};
ghost use Rattle.ag_pagestore.specs.declared.batch.PageWrite.{PageWrite};
ghost use Rattle.ag_pagestore.specs.Batches.{RisesFrom, IsWhole, pieces};
ghost use Rattle.ag_pieces.specs.Pieces.{sectors_in};
ghost use Rattle.ag_suspect.specs.Rows.{suspects_on};
ghost use Rattle.ag_suspect.specs.Places.{noted_sector, repaired_sector, piece_of};
ghost use Rattle.ag_rules.specs.Replica.{Master};
ghost use Rattle.ag_rules.specs.Plan.{Block_write, Master_write, Note_write, Repaired_write, Page_write, has_row, can_note};
ghost use Rattle.ag_keeping.specs.Keeping.{IsKeeping, store_on, next_block};
ghost use Rattle.ag_keeping.specs.Cutting.{cut_after, sector_master, CanCut};
ghost use Rattle.ag_keeping.specs.Meaning.{Mean};

/// A sync alone is the empty batch.
pub fn syncs_mean()
    ensures { (pages replica : ℕ) (image : Image) → IsKeeping pages replica image → Mean pages replica image [] [] }
{}

/// The sectors of a block after the log are the write of that block. One more can follow then.
pub fn blocks_mean()
    ensures means { (pages replica : ℕ) (image : Image) (term : ℕ) (new : List Record) → IsKeeping pages replica image → IsCurrent image (store_on image) → Follows (store_on image) (next_block image term new)
        → Mean pages replica image (record { first = sector_after (own_log image); sectors = sectors_of (next_block image term new) } ∷ []) (Block_write new ∷ []) }
    ensures current { (pages replica : ℕ) (image : Image) (term : ℕ) (new : List Record) → IsKeeping pages replica image → IsCurrent image (store_on image) → Follows (store_on image) (next_block image term new)
        → IsCurrent (put_all image (sectors_in (record { first = sector_after (own_log image); sectors = sectors_of (next_block image term new) } ∷ [])))
        (store_on (put_all image (sectors_in (record { first = sector_after (own_log image); sectors = sectors_of (next_block image term new) } ∷ [])))) }
{}

/// The sector of a master that cuts the log where it may is the write of that master. A block can follow then where one
/// could before, or where the incarnation is higher.
pub fn masters_mean()
    ensures means { (pages replica : ℕ) (image : Image) (m : Master) (end : ℕ) → IsKeeping pages replica image → CanCut (master_on image) (own_log image) m end → HasSpelling (sector_master (master_on image) m end)
        → Mean pages replica image (record { first = 0; sectors = spelling (sector_master (master_on image) m end) ∷ [] } ∷ []) (Master_write m end ∷ []) }
    ensures current { (pages replica : ℕ) (image : Image) (m : Master) (end : ℕ) → IsKeeping pages replica image → CanCut (master_on image) (own_log image) m end → HasSpelling (sector_master (master_on image) m end)
        → IsCurrent image (store_on image) ⊎ ((master_on image).incarnation < m.incarnation)
        → IsCurrent (with_master image (sector_master (master_on image) m end)) (store_on (with_master image (sector_master (master_on image) m end))) }
{}

/// The one sector of a note, or of a mark, is the write of that row.
pub fn rows_mean()
    ensures noted { (pages replica : ℕ) (image : Image) (page kind : ℕ) → IsKeeping pages replica image → 1 ≤ page → page < 2 ^ 16 → kind < 2 ^ 8 → can_note page (suspects_on image) ≡ true
        → Mean pages replica image (piece_of (noted_sector page kind (suspects_on image)) ∷ []) (Note_write page kind ∷ []) }
    ensures repaired { (pages replica : ℕ) (image : Image) (page : ℕ) → IsKeeping pages replica image → has_row page (suspects_on image) ≡ true
        → Mean pages replica image (piece_of (repaired_sector page (suspects_on image)) ∷ []) (Repaired_write page ∷ []) }
{}

/// The images of pages that rise, each with the mark after the one that stands there, are the writes of those pages.
pub fn pages_mean()
    ensures { (pages replica : ℕ) (image : Image) (writes : List PageWrite) → IsKeeping pages replica image → RisesFrom 16 writes → AllByRecursion IsWhole writes → AllByRecursion (λ w. w.page < 16 + pages) writes
        → Mean pages replica image (pieces image writes) (map (λ w. Page_write w.page) writes) }
{}

/// A worked example: over a master of incarnation 4 that cuts at 7, one of incarnation 5 cuts where it says, and one of incarnation 4 still at 7.
pub fn example_cuts()
    ensures higher { (state : ℕ) → cut_after (record { format = 1; state = 0; incarnation = 4; term = 2; cut = 7; undo = 0; redo = 3; pages = 16; replica = 1; foreign = [] })
        (record { term = 3; state = state; incarnation = 5; redo_start = 3; undo = 0; foreign = [] }) 9 ≡ 9 }
    ensures same { (state : ℕ) → cut_after (record { format = 1; state = 0; incarnation = 4; term = 2; cut = 7; undo = 0; redo = 3; pages = 16; replica = 1; foreign = [] })
        (record { term = 3; state = state; incarnation = 4; redo_start = 3; undo = 0; foreign = [] }) 9 ≡ 7 }
{}
