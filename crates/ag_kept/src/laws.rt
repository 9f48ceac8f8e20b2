//! Laws of what a stop leaves.
ghost use Rattle.std.specs.Prelude.{◌≡◌, ◌∷◌, [], ℕ, false};
ghost use Rattle.ag_model.specs.declared.record.Record.TheVariants.{Term};
ghost use Rattle.ag_model.specs.Cells.{keeps_all};
ghost use Rattle.ag_outside.specs.declared.disk.SectorWrite.{SectorWrite};
ghost use Rattle.ag_outside.specs.MemDisks.{image_of_zeros};
ghost use Rattle.ag_outside.specs.Scripts.{kept};
ghost use Rattle.ag_model.specs.declared.record.Log.{Log};
ghost use Rattle.ag_outside.specs.Disks.{Image};
ghost use Rattle.ag_logstore.specs.Stored.{Stored, no_log};
ghost use Rattle.ag_logstore.specs.LogOf.{IsLogOf};
ghost use Rattle.ag_logstore.specs.Stores.{StoreView, IsCurrent, Follows};
ghost use Rattle.ag_kept.specs.LogOn.{log_on};
ghost use Rattle.ag_kept.specs.Stopping.{stopped_image, log_where, keeps_block, opening_stored, blank_store};

/// After a stop in the write of a block the image has the log with the block exactly where the mask keeps each of the
/// block's sectors, and else the log as before.
pub fn stopped_blocks()
    ensures { (image : Image) (s : StoreView) (b : Stored) (mask : ℕ) → IsCurrent image s → Follows s b →
        IsLogOf (stopped_image image s b mask) s.cut s.incarnation (log_where (keeps_block mask b) s b) }
{}

/// A worked example: the opening block, of one sector, on a disk of zeros. It is there exactly where the mask keeps sector 0.
/// Of a block of three sectors the mask 5 keeps two, and so not the block.
pub fn stopped_opening()
    ensures dropped { IsLogOf (stopped_image image_of_zeros blank_store opening_stored 0) 0 1 no_log }
    ensures kept { IsLogOf (stopped_image image_of_zeros blank_store opening_stored 1) 0 1 (record { records = Term 1 ∷ []; ends = 1 ∷ [] }) }
    ensures other { IsLogOf (stopped_image image_of_zeros blank_store opening_stored 6148914691236517204) 0 1 no_log }
    ensures three { (a b c : SectorWrite) → (kept 5 0 (a ∷ b ∷ c ∷ []) ≡ a ∷ c ∷ []) × (keeps_all 5 0 3 ≡ false) }
{}

/// The log that is found on an image is its log.
pub fn found_logs()
    ensures { (image : Image) (cut incarnation : ℕ) (log : Log) → IsLogOf image cut incarnation log → log_on image cut incarnation ≡ log }
{}
