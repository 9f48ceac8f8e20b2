//! Taking a stripe and giving it back, and the call that applies a block. None of them waits.
ghost use Rattle.std.specs.Prelude.{◌≡◌, ◌≤◌, ◌<◌, ◌+◌, [], ◌∷◌, ℕ, true, false, length, slice_index, slice_set, IfOk, OnErr};
ghost use Rattle.ag_model.specs.declared.record.Log.{Log};
ghost use Rattle.ag_model.specs.Prefixes.{HasBlock};
ghost use Rattle.ag_front.specs.declared.rule.Slot.TheVariants.{Away};
ghost use Rattle.ag_front.specs.Rule.{IsSound, StandsAt};
ghost use Rattle.ag_front.specs.Slots.{IsBusy, Took};
ghost use Rattle.ag_front.specs.Applies.{CanBring, IsBrought, StripeVisited};

use crate::dispatch::LAST_TURN;
use crate::fault::Busy;
use crate::passes::Pass;
use crate::plays::{GiveStripe, TakeStripe};
use crate::rule::{FrontSeat, Slot};
use crate::shared::Front;
use ag_model::message::Block;
use ag_model::stands::{Stands, Steps};

impl<T: Steps> Front<T> {
    /// Brings a stripe through a block that the pass has seen, and answers its applied LSN. A stripe that is
    /// past the block stays as it is. Busy says that the stripe wasn't taken.
    pub fn try_apply(&self, pass: &mut Pass<T>, stripe: u8, block: &Block) -> Result<u64, Busy>
        requires own { pass.old.seat.table_id ≡ self.now.table.shared.table_id }
        requires stripe { stripe < 16 }
        requires seen { HasBlock pass.old.seat.me.0.seen block.now }
        requires reached { block.now.first ≤ slice_index pass.old.seat.me.0.done stripe + 1 }
        ensures own { (pass.new.seat.table_id ≡ pass.old.seat.table_id) × (pass.new.seat.id ≡ pass.old.seat.id) }
        ensures visited { IfOk result (λ n. StripeVisited stripe n pass.old.seat.me pass.new.seat.me) }
        ensures applied { IfOk result (λ n. block.now.first + length block.now.records ≤ n + 1) }
        ensures busy { OnErr result (IsBusy stripe pass.old.seat.me pass.new.seat.me) }
    {
        let place = usize::from(stripe);
        let (has, turn) = self.grab_stripe(&mut pass.seat, place, pass.turn[place]);
        if !has {
            pass.turn[place] = turn;
            return Err(Busy);
        }
        let shared = &self.table.shared;
        let slot = shared.exchange(&mut pass.seat, place, Slot::Away);
        let Slot::Stripe(mut value) = slot else {
            unreachable!()
        };
        bring_on(&mut value, block);
        let applied = value.applied();
        let turn = self.give_stripe(&mut pass.seat, place, value);
        pass.turn[place] = turn;
        pass.done[place] = applied;
        Ok(applied)
    }
}

/// Brings a stripe through the block, if it isn't past it.
fn bring_on<T: Steps>(value: &mut T, block: &Block)
    requires ready { (seen : Log) × (count : ℕ) × (k : ℕ) × CanBring T.standing seen count k value.old block.now }
    ensures on { (seen : Log) (count k : ℕ) → CanBring T.standing seen count k value.old block.now → IsBrought T.standing seen count k value.old value.new block.now }
{
    if value.applied() < block.first {
        value.apply(block);
    }
}

impl<T: Stands> Front<T> {
    /// Whether the stripe was taken, and the turn word that was found last or is now.
    pub(crate) fn grab_stripe(
        &self,
        seat: &mut FrontSeat<T>,
        stripe: usize,
        turn: u64,
    ) -> (bool, u64)
        requires own { (seat.old.table_id ≡ self.now.table.shared.table_id) × (stripe < 16) × (turn ≡ slice_index seat.old.me.0.turn stripe) }
        requires free { (seat.old.me.1 ≡ []) × (seat.old.me.0.hand ≡ 0) × (0 < seat.old.me.0.parts) }
        ensures own { (seat.new.table_id ≡ seat.old.table_id) × (seat.new.id ≡ seat.old.id) }
        ensures turn { result.1 ≡ slice_index seat.new.me.0.turn stripe }
        ensures taken { result.0 ≡ true → Took T.standing stripe result.1 seat.old.me seat.new.me }
        ensures busy { result.0 ≡ false → IsBusy stripe seat.old.me seat.new.me }
    {
        if turn >= LAST_TURN {
            return (false, turn);
        }
        let start = turn + turn % 2;
        let shared = &self.table.shared;
        let found = shared.compare_exchange::<TakeStripe>(seat, 16 + stripe, start, start + 1);
        if found == start {
            return (true, start + 1);
        }
        if found % 2 == 1 || found >= LAST_TURN {
            return (false, found);
        }
        let again = shared.compare_exchange::<TakeStripe>(seat, 16 + stripe, found, found + 1);
        if again == found {
            return (true, found + 1);
        }
        (false, again)
    }

    /// Gives a stripe back with this value, and answers the turn word then.
    pub(crate) fn give_stripe(&self, seat: &mut FrontSeat<T>, stripe: usize, value: T) -> u64
        requires own { (seat.old.table_id ≡ self.now.table.shared.table_id) × (stripe < 16) × (0 < seat.old.me.0.parts) }
        requires held { (seat.old.me.1 ≡ (stripe, Away) ∷ []) × (seat.old.me.0.hand ≡ stripe + 1) }
        requires value { (seat.old.me.0.at ≤ (T.standing value).applied) × StandsAt T.standing seat.old.me.0.pages seat.old.me.0.seen stripe (T.standing value).applied value }
        ensures own { (seat.new.table_id ≡ seat.old.table_id) × (seat.new.id ≡ seat.old.id) }
        ensures home { seat.new.me ≡ (record seat.old.me.0 { done = slice_set seat.old.me.0.done stripe (T.standing value).applied; turn = slice_set seat.old.me.0.turn stripe result; hand = 0 }, []) }
        ensures turn { slice_index seat.old.me.0.turn stripe ≤ result }
        ensures sound { IsSound seat.new.me.0 }
    {
        let shared = &self.table.shared;
        let left = shared.exchange(seat, stripe, Slot::Stripe(value));
        let Slot::Away = left else { unreachable!() };
        let found = shared.fetch_add::<GiveStripe>(seat, 16 + stripe, 1);
        found + 1
    }
}
