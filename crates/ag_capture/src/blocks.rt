//! The blocks of a log by their ends.
ghost use Rattle.std.specs.Prelude.{◌≡◌, ◌+◌};
ghost use Rattle.std.specs.List.{slice_get};
ghost use Rattle.std.specs.Option.{option_and_then};
ghost use Rattle.ag_model.specs.Blocks.{end_of_block};
ghost use Rattle.ag_model.specs.Proper.{RisesFrom};

/// Where the block ends that starts at an LSN, among ends that rise.
pub(crate) fn block_end(ends: &[u64], first: u64) -> Option<u64>
    ensures { RisesFrom 0 ends.now → result ≡ end_of_block 0 first ends.now }
{
    let before = first.checked_sub(1)?;
    let place = place_after(ends, before)?;
    ends.get(place).copied()
}

/// The place of the block that starts after an LSN, among ends that rise.
fn place_after(ends: &[u64], before: u64) -> Option<usize>
    ensures { RisesFrom 0 ends.now → end_of_block 0 (before + 1) ends.now ≡ option_and_then (slice_get ends.now) result }
{
    if before == 0 {
        return Some(0);
    }
    match ends.binary_search(&before) {
        Ok(place) => Some(place + 1),
        Err(_) => None,
    }
}
