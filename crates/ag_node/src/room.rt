//! The room that `set` needs, told by the bytes used on each page.
ghost use Rattle.std.specs.Prelude.{◌≡◌, ℕ, ◌+◌, ◌-◌, ◌%◌, ◌<◌, ◌≤◌, [], length, None, get_or, IfOk, OnOk};
ghost use Rattle.std.specs.List.{All};
ghost use Rattle.ag_model.specs.Rows.{page_of};
ghost use Rattle.ag_rules.specs.SetEvent.{pair_size, taken_on};
ghost use Rattle.ag_node.specs.Room.{used_after, used_by, used_in, room_left, first_full};

use crate::opening::unused;
use ag_model::answer::Refusal;
use ag_model::event::Pair;
use ag_model::record::Record;
use ag_model::value::NoMemory;
use std::alloc::Global;

/// The bytes that the versions of a page may take.
const PAGE_ROOM: u32 = 8144;

/// The bytes of a pair on its page.
fn pair_size(pair: &Pair) -> u32
    ensures size { result ≡ pair_size pair.now }
    ensures bound { result < 286 }
{
    30 + u32::from(pair.value.len)
}

/// The place of the page of a key among the pages.
fn slot_of(pages: u16, key: u32) -> usize
    requires { 0 < pages }
    ensures { result ≡ key % pages }
{
    (key % u32::from(pages)) as usize
}

/// The bytes that the earlier pairs take on the page of a key.
fn taken_on(pages: u16, key: u32, earlier: &[Pair]) -> u32
    requires some { 0 < pages }
    requires few { length earlier.now ≤ 8 }
    ensures { result ≡ taken_on pages (page_of pages key) earlier.now }
{
    let slot = slot_of(pages, key);
    let mut taken = 0;
    for pair in earlier {
        if slot_of(pages, pair.key) == slot {
            taken += pair_size(pair);
        }
    }
    taken
}

/// The bytes that the page of a pair has free, after the earlier pairs.
fn room_left(pages: u16, used: &[u32], earlier: &[Pair], pair: &Pair) -> u32
    requires some { 0 < pages }
    requires each_page { length used.now ≡ pages }
    requires few { length earlier.now ≤ 8 }
    ensures { result ≡ room_left pages used.now earlier.now pair.now }
{
    let free = PAGE_ROOM.saturating_sub(used[slot_of(pages, pair.key)]);
    free.saturating_sub(taken_on(pages, pair.key, earlier))
}

/// The refusal of the first pair whose page has no room for it after the earlier ones, where so many bytes are used on each page.
pub(crate) fn first_full(pages: u16, used: &[u32], pairs: &[Pair]) -> Option<Refusal>
    requires some { 0 < pages }
    requires each_page { length used.now ≡ pages }
    requires few { length pairs.now ≤ 8 }
    ensures { result ≡ first_full pages used.now [] pairs.now }
{
    for (index, pair) in pairs.iter().enumerate() {
        let need = pair_size(pair);
        let free = room_left(pages, used, &pairs[..index], pair);
        if free < need {
            return Some(Refusal::PageFull {
                need: u64::from(need),
                free: u64::from(free),
            });
        }
    }
    None
}

/// Counts the bytes of pairs that fit on their pages.
pub(crate) fn spend(pages: u16, used: &mut [u32], pairs: &[Pair])
    requires some { 0 < pages }
    requires each_page { length used.old ≡ pages }
    requires small { All (λ bytes. bytes ≤ 8144) used.old }
    requires fits { first_full pages used.old [] pairs.now ≡ None }
    ensures after { used.new ≡ used_after pages pairs.now used.old }
    ensures small { All (λ bytes. bytes ≤ 8144) used.new }
{
    for pair in pairs {
        used[slot_of(pages, pair.key)] += pair_size(pair);
    }
}

/// The bytes that the Puts of a log use on each page. More than a page has room for comes in no run, and is answered by
/// want of memory.
pub(crate) fn used_in(alloc: Global, pages: u16, log: &[Record]) -> Result<Vec<u32>, NoMemory>
    requires some { 0 < pages }
    ensures used { IfOk result (λ used. used.items ≡ used_in pages log.now) }
    ensures small { IfOk result (λ used. All (λ bytes. bytes ≤ 8144) used.items) }
{
    let mut used = unused(alloc, pages)?;
    for entry in log {
        count(pages, used.as_mut_slice(), entry)?;
    }
    Ok(used)
}

/// Counts the bytes of a Put on its page.
fn count(pages: u16, used: &mut [u32], entry: &Record) -> Result<(), NoMemory>
    requires some { 0 < pages }
    requires each_page { length used.old ≡ pages }
    requires small { All (λ bytes. bytes ≤ 8144) used.old }
    ensures ok { OnOk result (used.new ≡ used_by pages used.old entry.now) }
    ensures small { All (λ bytes. bytes ≤ 8144) used.new }
{
    let Record::Put { txn: _, key, value } = entry else {
        return Ok(());
    };
    let slot = slot_of(pages, *key);
    let bytes = used[slot].saturating_add(30 + u32::from(value.len));
    if bytes > PAGE_ROOM {
        return Err(NoMemory);
    }
    used[slot] = bytes;
    Ok(())
}
