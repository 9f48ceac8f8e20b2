//! Laws of batches.
ghost use Rattle.std.specs.Prelude.{◌≡◌, ℕ, List, IsTrue, false};
ghost use Rattle.std.specs.List.{AllByRecursion};
ghost use Rattle.ag_model.specs.Cells.{written_cells};
ghost use Rattle.ag_outside.specs.Disks.{Image, put_all, Only};
ghost use Rattle.ag_page.specs.Home.{PutBack};
ghost use Rattle.ag_pagestore.specs.Homes.{Held, Leaves, LastMayBeRefused};
ghost use Rattle.ag_outside.specs.Scripts.{kept};
ghost use Rattle.ag_pagestore.specs.declared.batch.PageWrite.{PageWrite};
ghost use Rattle.ag_pagestore.specs.Places.{page_cells, IsOutside};
ghost use Rattle.ag_pagestore.specs.Batches.{RisesFrom, IsWhole, written};
ghost use Rattle.ag_pagestore.specs.Stopped.{AreKept};

use ag_outside::disk::Disk;

/// What batches do to cells. Pages that rise are written, or a stop keeps some of their sectors by a mask; the first
/// sector of the first page has the number `from`.
pub fn batches()
    // A whole batch leaves in each page the cells of a whole write.
    ensures whole { (disk : Image) (batch : List PageWrite) → RisesFrom 16 batch → AllByRecursion IsWhole batch →
        AllByRecursion (λ w. page_cells (put_all disk (written disk batch)) w.page ≡ written_cells (page_cells disk w.page)) batch }

    // A stop leaves the cells of the sectors that the mask keeps, and each other sector what it had.
    ensures stopped { (disk : Image) (batch : List PageWrite) (mask from : ℕ) → RisesFrom 16 batch → AllByRecursion IsWhole batch →
        AreKept disk (put_all disk (kept mask from (written disk batch))) mask from batch }
    ensures others { (disk : Image) (batch : List PageWrite) (mask from at : ℕ) → AllByRecursion IsWhole batch → AllByRecursion (λ w. IsOutside w.page at) batch →
        put_all disk (kept mask from (written disk batch)) at ≡ disk at }
{}

/// What writings through a page store do to its disk. Whether the disk keeps to the model and its size stay. Where nothing
/// was unsynced and no call was refused, each sector outside the pages has what it had, and nothing is unsynced.
pub fn writings<D: Disk>()
    ensures same { (old new : Held D) (ws : List PutBack) → Leaves D.size D.keeps D.reads D.may_hold D.did D.moment D.left_since old ws new →
        (D.keeps new.disk ≡ D.keeps old.disk) × (D.size new.disk ≡ D.size old.disk) }
    ensures synced { (old new : Held D) (ws : List PutBack) → Leaves D.size D.keeps D.reads D.may_hold D.did D.moment D.left_since old ws new →
        IsTrue (D.keeps old.disk) → Only (D.reads old.disk) (D.may_hold old.disk) → AllByRecursion (λ w. w.refused ≡ false) ws → Only (D.reads new.disk) (D.may_hold new.disk) }
    ensures outside { (old new : Held D) (ws : List PutBack) (at : ℕ) → Leaves D.size D.keeps D.reads D.may_hold D.did D.moment D.left_since old ws new →
        IsTrue (D.keeps old.disk) → Only (D.reads old.disk) (D.may_hold old.disk) → LastMayBeRefused ws → AllByRecursion (λ w. IsOutside w.page at) ws → D.reads new.disk at ≡ D.reads old.disk at }
{}
