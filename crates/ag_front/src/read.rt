//! The calls that read a row.
ghost use Rattle.std.specs.Prelude.{◌≡◌, ◌≤◌, ◌<◌, ◌+◌, ◌%◌, ℕ, slice_index, IfOk, IfErr};
ghost use Rattle.ag_model.specs.Prefixes.{IsBlockEnd};
ghost use Rattle.ag_front.specs.Rule.{least};
ghost use Rattle.ag_front.specs.Passes.{Loaded};
ghost use Rattle.ag_front.specs.Applies.{StripeVisited, RowVisited, stripe_of_key, IsRowAt, IsTooOld, IsReadFault};

use crate::fault::FrontReadFault;
use crate::passes::Pass;
use crate::rule::Slot;
use crate::shared::Front;
use ag_model::stands::Steps;
use ag_model::value::{Row, TooOld};
use std::sync::Wait;
use std::thread;

impl<T: Steps> Front<T> {
    /// The row of a key at an LSN that is a front which the pass has seen. Busy says that the key's stripe
    /// wasn't taken.
    pub fn try_read(&self, pass: &mut Pass<T>, key: u32, at: u64) -> Result<Row, FrontReadFault>
        requires own { pass.old.seat.table_id ≡ self.now.table.shared.table_id }
        requires front { at ≤ least pass.old.seat.me.0.floor }
        ensures own { (pass.new.seat.table_id ≡ pass.old.seat.table_id) × (pass.new.seat.id ≡ pass.old.seat.id) }
        ensures row { IfOk result (IsRowAt pass.new.seat.me.0 key at) }
        ensures visited { IfOk result (λ _. let k = stripe_of_key pass.old.seat.me.0.pages key in StripeVisited k (slice_index pass.new.seat.me.0.done k) pass.old.seat.me pass.new.seat.me) }
        ensures fault { IfErr result (IsReadFault key at pass.old.seat.me pass.new.seat.me) }
    {
        let place = stripe_of_page(16 + key % u32::from(pass.pages));
        let (has, turn) = self.grab_stripe(&mut pass.seat, place, pass.turn[place]);
        if !has {
            pass.turn[place] = turn;
            return Err(FrontReadFault::Busy);
        }
        let shared = &self.table.shared;
        let slot = shared.exchange(&mut pass.seat, place, Slot::Away);
        let Slot::Stripe(mut value) = slot else {
            unreachable!()
        };
        let row = value.row_at(key, at);
        let applied = value.applied();
        let turn = self.give_stripe(&mut pass.seat, place, value);
        pass.turn[place] = turn;
        pass.done[place] = applied;
        match row {
            Ok(row) => Ok(row),
            Err(fault) => Err(FrontReadFault::TooOld(fault)),
        }
    }
}

impl<T: Steps> Front<T> {
    /// The front, and the row of a key there. It waits for whoever has the key's stripe.
    pub fn read<R: Wait>(&self, rt: &R, pass: &mut Pass<T>, key: u32) -> Result<(u64, Row), TooOld>
        requires own { pass.old.seat.table_id ≡ self.now.table.shared.table_id }
        ensures own { (pass.new.seat.table_id ≡ pass.old.seat.table_id) × (pass.new.seat.id ≡ pass.old.seat.id) }
        ensures visited { RowVisited (stripe_of_key pass.old.seat.me.0.pages key) pass.old.seat.me pass.new.seat.me }
        ensures loads { Loaded 16 pass.old.seat.me.0.loads pass.new.seat.me.0.loads }
        ensures seen_before { least pass.old.seat.me.0.floor ≤ least pass.new.seat.me.0.floor }
        ensures front { IfOk result (λ r. r.0 ≡ least pass.new.seat.me.0.floor) }
        ensures end { IfOk result (λ r. IsBlockEnd pass.new.seat.me.0.seen r.0) }
        ensures row { IfOk result (λ r. IsRowAt pass.new.seat.me.0 key r.0 r.1) }
        ensures too_old { IfErr result (IsTooOld pass.new.seat.me.0 key (least pass.new.seat.me.0.floor)) }
    {
        let at = self.front(pass);
        for _ in rt.forever() {
            match self.try_read(pass, key, at) {
                Ok(row) => return Ok((at, row)),
                Err(FrontReadFault::TooOld(fault)) => return Err(fault),
                Err(FrontReadFault::Busy) => thread::yield_now(),
            }
        }
        unreachable!()
    }
}

/// The stripe of a page.
fn stripe_of_page(page: u32) -> usize
    ensures { result ≡ page % 16 }
{
    (page % 16) as usize
}
