//! The making of a front.
ghost use Rattle.std.specs.Prelude.{◌≡◌, ◌<◌, ◌≤◌, ◌^◌, false, length, replicate, slice_index, IfOk};
ghost use Rattle.ag_model.specs.Proper.{IsProper};
ghost use Rattle.ag_front.specs.Rule.{starting};
ghost use Rattle.ag_front.specs.Opens.{AreStripes, OpeningsOf, AppliedOf, OpeningWords, all_slots, pages_of};

use crate::history::History;
use crate::passes::Pass;
use crate::rule::{Opening, Slot};
use crate::shared::Front;
use ag_model::record::Log;
use ag_model::stands::Stands;
use ag_model::value::NoMemory;
use atomic_table::Table;
use std::alloc::Global;
use std::snapshot::Snapshot;

/// A front over a log and sixteen stripes in order that stand for it, and its first pass, which has all
/// parts and is the author. The published LSNs are the stripes' opening LSNs.
pub fn begin_front<T: Stands>(stripes: Vec<T>, log: Log) -> Result<(Front<T>, Pass<T>), NoMemory>
    requires proper { IsProper (pages_of T.standing stripes.items) log }
    requires stripes { AreStripes T.standing log stripes.items (pages_of T.standing stripes.items) }
    requires none_bad { T.may_be_bad ≡ false }
    ensures own { IfOk result (λ f. f.1.seat.table_id ≡ f.0.table.shared.table_id) }
    ensures floors { IfOk result (λ f. OpeningsOf T.standing stripes.items 16 f.1.seat.me.0.floor) }
    ensures dones { IfOk result (λ f. AppliedOf T.standing stripes.items 16 f.1.seat.me.0.done) }
    ensures view { IfOk result (λ f. f.1.seat.me.0 ≡ starting (pages_of T.standing stripes.items) log f.1.seat.me.0.floor f.1.seat.me.0.done) }
{
    let alloc = *stripes.allocator();
    let published = openings(stripes.as_slice());
    let applied = applieds(stripes.as_slice());
    let pages = stripes[0].pages();
    let about = Opening {
        pages,
        log: Snapshot::of(&log),
        published,
        applied,
    };
    let slots = fill(alloc, stripes, log)?;
    match Table::new(alloc, &words_of(&published), slots, &about) {
        Ok((table, seat)) => Ok((
            Front { table, alloc },
            Pass {
                seat,
                done: applied,
                turn: [0; 17],
                pages,
            },
        )),
        Err(_) => Err(NoMemory),
    }
}

/// The slots of a new front.
fn fill<T: Drop>(alloc: Global, stripes: Vec<T>, log: Log) -> Result<Vec<Slot<T>>, NoMemory>
    requires { length log.records < 2 ^ 64 }
    ensures { IfOk result (λ v. v.items ≡ all_slots stripes.items log) }
{
    let history = History::of(alloc, log)?;
    let mut slots = Vec::new(alloc);
    for stripe in stripes {
        if slots.push(Slot::Stripe(stripe)).is_err() {
            return Err(NoMemory);
        }
    }
    if slots.push(Slot::History(history)).is_err() {
        return Err(NoMemory);
    }
    Ok(slots)
}

/// The words of a new front.
fn words_of(published: &[u64; 16]) -> [u64; 33]
    ensures { OpeningWords result published.now }
{
    let mut words = [0; 33];
    for k in 0..16 {
        words[k] = published[k];
    }
    words
}

/// The opening LSNs of the stripes.
fn openings<T: Stands>(stripes: &[T]) -> [u64; 16]
    requires { length stripes.now ≡ 16 }
    ensures { OpeningsOf T.standing stripes.now 16 result }
{
    let mut all = [0; 16];
    for k in 0..16 {
        all[k] = stripes[k].opening();
    }
    all
}

/// The applied LSNs of the stripes.
fn applieds<T: Stands>(stripes: &[T]) -> [u64; 16]
    requires { length stripes.now ≡ 16 }
    ensures { AppliedOf T.standing stripes.now 16 result }
{
    let mut all = [0; 16];
    for k in 0..16 {
        all[k] = stripes[k].applied();
    }
    all
}
