//! What is found among the block ends and the term starts of a log.
ghost use Rattle.std.specs.Prelude.{◌≡◌, ◌+◌, ◌≤◌, length, take, nat_le};
ghost use Rattle.std.specs.Option.{option_and_then};
ghost use Rattle.std.specs.List.{slice_get, filter};
ghost use Rattle.std.specs.List.Sorted.{IsNonDecreasingBy};
ghost use Rattle.ag_model.specs.Blocks.{end_of_block, next_end};
ghost use Rattle.ag_model.specs.Proper.{RisesFrom};
ghost use Rattle.ag_ends.specs.Starts.{term_by};

use ag_model::config::TermStart;

/// The term of the last of these starts up to an LSN, or 0.
pub(crate) fn term_of(starts: &[TermStart], last: u64) -> u64
    ensures { result ≡ term_by last starts.now }
{
    for i in (0..starts.len()).rev() {
        let start = starts[i];
        if start.lsn <= last {
            return start.term;
        }
    }
    0
}

/// Where the block ends that starts at an LSN.
pub(crate) fn block_end(ends: &[u64], first: u64) -> Option<u64>
    requires { RisesFrom 0 ends.now }
    ensures { result ≡ end_of_block 0 first ends.now }
{
    let before = first.checked_sub(1)?;
    let place = place_after(ends, before)?;
    ends.get(place).copied()
}

/// The place of the block that starts after an LSN.
fn place_after(ends: &[u64], before: u64) -> Option<usize>
    requires { RisesFrom 0 ends.now }
    ensures { end_of_block 0 (before + 1) ends.now ≡ option_and_then (slice_get ends.now) result }
{
    if before == 0 {
        return Some(0);
    }
    match ends.binary_search(&before) {
        Ok(place) => Some(place + 1),
        Err(_) => None,
    }
}

/// The first end after an LSN, or this LSN where there is none.
pub(crate) fn end_after(ends: &[u64], lsn: u64) -> u64
    requires { RisesFrom 0 ends.now }
    ensures { result ≡ next_end lsn ends.now }
{
    let place = match ends.binary_search(&lsn) {
        Ok(place) => place + 1,
        Err(place) => place,
    };
    match ends.get(place) {
        Some(end) => *end,
        None => lsn,
    }
}

/// How many blocks end at an LSN or before it.
pub(crate) fn ends_to(ends: &[u64], last: u64) -> usize
    requires { RisesFrom 0 ends.now }
    ensures kept { take result ends.now ≡ filter (λ e. nat_le e last) ends.now }
    ensures bound { result ≤ length ends.now }
{
    ends.partition_point(
        |end: &u64| -> bool
            ensures { result ≡ nat_le end.now last }
        { *end <= last },
    )
}

/// How many terms start at an LSN or before it.
pub(crate) fn starts_to(starts: &[TermStart], last: u64) -> usize
    requires { IsNonDecreasingBy (λ s. s.lsn) starts.now }
    ensures kept { take result starts.now ≡ filter (λ s. nat_le s.lsn last) starts.now }
    ensures bound { result ≤ length starts.now }
{
    starts.partition_point(
        |start: &TermStart| -> bool
            ensures { result ≡ nat_le start.now.lsn last }
        { start.lsn <= last },
    )
}
