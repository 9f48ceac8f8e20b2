//! Laws of the log of an image.
ghost use Rattle.std.specs.Prelude.{◌≡◌, ◌⊎◌, ◌+◌, ◌<◌, ◌≤◌, ◌∷◌, [], ℕ, List, length, Contains};
ghost use Rattle.ag_model.specs.declared.record.Log.{Log};
ghost use Rattle.ag_model.specs.Blocks.{with_block, cut_at};
ghost use Rattle.ag_model.specs.Sizes.{block_sectors};
ghost use Rattle.ag_outside.specs.Disks.{Image, or_zeros};
ghost use Rattle.ag_logstore.specs.Stored.{log_start, log_end, IsLogSector, Stored, sectors_of, StandAt, incarnation_at, first_place, place_after, AreStored, no_log, log_of_blocks};
ghost use Rattle.ag_logstore.specs.LogOf.{IsLogOf};
ghost use Rattle.ag_logstore.specs.Stores.{StoreView, sector_after, IsCurrent, IsTorn, Follows};

/// An image has one log at most, and it depends on the sectors of the log alone.
pub fn logs()
    ensures one { (image : Image) (cut incarnation : ℕ) (log other : Log) → IsLogOf image cut incarnation log → IsLogOf image cut incarnation other → log ≡ other }
    ensures region { (image other : Image) (cut incarnation : ℕ) (log : Log) → IsLogOf image cut incarnation log
        → ((at : ℕ) → IsLogSector at → or_zeros (other at) ≡ or_zeros (image at)) → IsLogOf other cut incarnation log }
    ensures current { (image other : Image) (s : StoreView) → IsCurrent image s → ((at : ℕ) → IsLogSector at → or_zeros (other at) ≡ or_zeros (image at)) → IsCurrent other s }
{}

/// Blocks that stand one after the other end where their log says.
pub fn places()
    ensures sector { (image : Image) (cut incarnation : ℕ) (bs : List Stored) → AreStored image cut incarnation first_place bs → (place_after first_place bs).sector ≡ sector_after (log_of_blocks bs) }
    ensures lsn { (image : Image) (cut incarnation : ℕ) (bs : List Stored) → AreStored image cut incarnation first_place bs → (place_after first_place bs).lsn ≡ length (log_of_blocks bs).records + 1 }
{}

/// What a write of a block leaves of the log, of which a crash may keep any of the sectors.
pub fn torn_blocks()
    ensures whole { (image after : Image) (s : StoreView) (b : Stored) → IsCurrent image s → Follows s b → IsTorn image (sector_after s.log) (sectors_of b) after
        → StandAt after (sector_after s.log) (sectors_of b) → IsCurrent after (record s { log = with_block s.log b.records }) }
    ensures torn { (image after : Image) (s : StoreView) (b : Stored) → IsCurrent image s → Follows s b → IsTorn image (sector_after s.log) (sectors_of b) after
        → (at : ℕ) → sector_after s.log ≤ at → at < sector_after s.log + block_sectors b.records → after at ≡ image at → IsLogOf after s.cut s.incarnation s.log }
    ensures either { (image after : Image) (s : StoreView) (b : Stored) → IsCurrent image s → Follows s b → IsTorn image (sector_after s.log) (sectors_of b) after
        → IsLogOf after s.cut s.incarnation s.log ⊎ IsLogOf after s.cut s.incarnation (with_block s.log b.records) }
    ensures greatest { (image after : Image) (s : StoreView) (b : Stored) → IsCurrent image s → Follows s b → IsTorn image (sector_after s.log) (sectors_of b) after
        → (at : ℕ) → IsLogSector at → incarnation_at after at ≤ s.incarnation }
{}

/// A log that is cut at a block's end for an incarnation that no sector of the log has reached.
pub fn raised()
    ensures { (image : Image) (s : StoreView) (end incarnation : ℕ) → IsLogOf image s.cut s.incarnation s.log → (end ≡ 0) ⊎ Contains s.log.ends end → s.incarnation < incarnation
        → ((at : ℕ) → IsLogSector at → incarnation_at image at < incarnation) → IsCurrent image (record { log = cut_at end s.log; cut = end; incarnation = incarnation; is_closed = s.is_closed }) }
{}

/// Where no sector of the log names an incarnation, as on a disk of zeros, there is no block, and a store can begin.
pub fn fresh()
    ensures empty { (image : Image) (cut incarnation : ℕ) → ((at : ℕ) → IsLogSector at → incarnation_at image at ≡ 0) → IsLogOf image cut incarnation no_log }
    ensures begins { (image : Image) (s : StoreView) → ((at : ℕ) → IsLogSector at → incarnation_at image at ≡ 0) → IsLogOf image s.cut s.incarnation s.log → 1 ≤ s.incarnation → IsCurrent image s }
{}
