//! Reading the front, raising a published LSN, and making two passes of one and one of two.
ghost use Rattle.std.specs.Prelude.{◌≡◌, ◌≤◌, ◌<◌, length, slice_index};
ghost use Rattle.ag_model.specs.Prefixes.{IsPrefix};
ghost use Rattle.ag_front.specs.Rule.{least};
ghost use Rattle.ag_front.specs.Steps.{after_raise, after_load, kept_part, given_part, merged, maxes};
ghost use Rattle.ag_front.specs.Passes.{OnlyFloors, Loaded};

use crate::passes::Pass;
use crate::plays::{Count, Cut, Load, Merge, Raise};
use crate::shared::Front;
use ag_model::stands::Stands;
use std::marker::Brand;

impl<T: Stands> Front<T> {
    /// The front: the least published LSN of the sixteen that it loads.
    pub fn front(&self, pass: &mut Pass<T>) -> u64
        requires own { pass.old.seat.table_id ≡ self.now.table.shared.table_id }
        ensures own { (pass.new.seat.table_id ≡ pass.old.seat.table_id) × (pass.new.seat.id ≡ pass.old.seat.id) }
        ensures least { result ≡ least pass.new.seat.me.0.floor }
        ensures seen_before { least pass.old.seat.me.0.floor ≤ result }
        ensures loads { Loaded 16 pass.old.seat.me.0.loads pass.new.seat.me.0.loads }
        ensures only { OnlyFloors pass.old.seat.me.0 pass.new.seat.me.0 }
    {
        let shared = &self.table.shared;
        let seat = &mut pass.seat;
        let mut low = shared.load::<Load>(seat, 0);
        for k in 1..16 {
            let word = shared.load::<Load>(seat, k);
            low = low.min(word);
        }
        low
    }

    /// Raises the published LSN of a stripe to the LSN up to which the pass knows it applied, if it is lower,
    /// and answers the published LSN then.
    pub fn raise(&self, pass: &mut Pass<T>, stripe: u8) -> u64
        requires own { pass.old.seat.table_id ≡ self.now.table.shared.table_id }
        requires stripe { stripe < 16 }
        ensures own { (pass.new.seat.table_id ≡ pass.old.seat.table_id) × (pass.new.seat.id ≡ pass.old.seat.id) }
        ensures raised { slice_index pass.old.seat.me.0.done stripe ≤ result }
        ensures risen { slice_index pass.old.seat.me.0.floor stripe ≤ result }
        ensures only { pass.new.seat.me.0 ≡ after_raise pass.old.seat.me.0 stripe result }
    {
        let word = usize::from(stripe);
        let done = pass.done[word];
        let found = self
            .table
            .shared
            .fetch_max::<Raise>(&mut pass.seat, word, done);
        found.max(done)
    }

    fn split_as<C: Count>(&self, pass: &mut Pass<T>, parts: u32) -> Pass<T>
        requires own { pass.old.seat.table_id ≡ self.now.table.shared.table_id }
        requires count { parts ≡ C.count }
        requires parts { (0 < parts) × (parts < pass.old.seat.me.0.parts) }
        ensures own { (pass.new.seat.table_id ≡ pass.old.seat.table_id) × (pass.new.seat.id ≡ pass.old.seat.id) × (result.seat.table_id ≡ pass.old.seat.table_id) }
        ensures kept { pass.new.seat.me.0 ≡ kept_part parts pass.old.seat.me.0 }
        ensures given { result.seat.me.0 ≡ given_part parts pass.old.seat.me.0 }
    {
        let _ = parts;
        let seat = self.table.shared.split_seat::<Cut<C>>(&mut pass.seat);
        Pass {
            seat,
            done: pass.done,
            turn: pass.turn,
            pages: pass.pages,
        }
    }

    /// A pass with so many parts of this one's, that has seen the same and isn't the author.
    pub fn split(&self, pass: &mut Pass<T>, parts: u32) -> Pass<T>
        requires own { pass.old.seat.table_id ≡ self.now.table.shared.table_id }
        requires parts { (0 < parts) × (parts < pass.old.seat.me.0.parts) }
        ensures own { (pass.new.seat.table_id ≡ pass.old.seat.table_id) × (pass.new.seat.id ≡ pass.old.seat.id) × (result.seat.table_id ≡ pass.old.seat.table_id) }
        ensures kept { pass.new.seat.me.0 ≡ kept_part parts pass.old.seat.me.0 }
        ensures given { result.seat.me.0 ≡ given_part parts pass.old.seat.me.0 }
    {
        self.split_as::<Brand>(pass, parts)
    }

    /// Takes in what the other pass knows, and its parts.
    pub fn join(&self, pass: &mut Pass<T>, other: Pass<T>)
        requires own { (pass.old.seat.table_id ≡ self.now.table.shared.table_id) × (other.seat.table_id ≡ self.now.table.shared.table_id) }
        ensures own { (pass.new.seat.table_id ≡ pass.old.seat.table_id) × (pass.new.seat.id ≡ pass.old.seat.id) }
        ensures lists { IsPrefix pass.old.seat.me.0.seen pass.new.seat.me.0.seen × IsPrefix other.seat.me.0.seen pass.new.seat.me.0.seen }
        ensures known { let both = merged pass.old.seat.me.0 other.seat.me.0 in pass.new.seat.me.0 ≡ after_load both 0 (slice_index pass.new.seat.me.0.floor 0) }
        ensures risen { let both = merged pass.old.seat.me.0 other.seat.me.0 in slice_index both.floor 0 ≤ slice_index pass.new.seat.me.0.floor 0 }
    {
        let Pass {
            seat,
            done,
            turn,
            pages: _,
        } = other;
        self.table.shared.join_seat::<Merge>(&mut pass.seat, seat);
        raise_all(&mut pass.done, &done);
        raise_all(&mut pass.turn, &turn);
        self.table.shared.load::<Load>(&mut pass.seat, 0);
    }
}

// Each number becomes the greater of the two at its place.
fn raise_all(all: &mut [u64], others: &[u64])
    requires { length all.old ≡ length others.now }
    ensures { all.new ≡ maxes all.old others.now }
{
    for k in 0..all.len() {
        all[k] = all[k].max(others[k]);
    }
}
