//! The calls that take the log. They wait for the pass that has it.
ghost use Rattle.std.specs.Prelude.{◌≡◌, ◌<◌, ◌≤◌, ◌+◌, ◌∷◌, [], true, slice_index, slice_set, IfOk, IfErr, OnErr};
ghost use Rattle.ag_model.specs.Blocks.{with_block};
ghost use Rattle.ag_model.specs.Prefixes.{end_of};
ghost use Rattle.ag_model.specs.Proper.{IsProper};
ghost use Rattle.ag_front.specs.declared.rule.Slot.TheVariants.{Away};
ghost use Rattle.ag_front.specs.Rule.{IsSound};
ghost use Rattle.ag_front.specs.Fetches.{IsDispatchFault, IsFetched};
ghost use Rattle.ag_front.specs.Slots.{MayGive, TookLog, Trying, LogVisited};

use crate::fault::{DispatchFault, Fetched};
use crate::history::History;
use crate::passes::Pass;
use crate::plays::{GiveLog, TakeLog};
use crate::rule::{FrontSeat, Slot};
use crate::shared::Front;
use ag_model::message::Block;
use ag_model::stands::Stands;
use ag_model::value::NoMemory;
use std::sync::Wait;
use std::thread;

/// No slot is taken at this turn word or past it, so that the word never reaches the end of its type.
pub(crate) const LAST_TURN: u64 = 0xffff_ffff_ffff_fffd;

impl<T: Stands> Front<T> {
    /// Adds a block to the log, and answers the log's new last LSN. NotNext says that the block doesn't
    /// start one past the log's end. After an error the log is as it was, and the block is gone.
    pub fn dispatch<R: Wait>(
        &self,
        rt: &R,
        pass: &mut Pass<T>,
        block: Block,
    ) -> Result<u64, DispatchFault>
        requires own { pass.old.seat.table_id ≡ self.now.table.shared.table_id }
        requires author { pass.old.seat.me.0.author ≡ true }
        requires block { block.first ≡ end_of pass.old.seat.me.0.seen + 1 → IsProper pass.old.seat.me.0.pages (with_block pass.old.seat.me.0.seen block.records) }
        ensures own { (pass.new.seat.table_id ≡ pass.old.seat.table_id) × (pass.new.seat.id ≡ pass.old.seat.id) }
        ensures visited { LogVisited pass.old.seat.me pass.new.seat.me }
        ensures next { IfOk result (λ _. block.first ≡ end_of pass.old.seat.me.0.seen + 1) }
        ensures added { IfOk result (λ _. pass.new.seat.me.0.seen ≡ with_block pass.old.seat.me.0.seen block.records) }
        ensures end { IfOk result (λ end. end ≡ end_of pass.new.seat.me.0.seen) }
        ensures same { OnErr result (pass.new.seat.me.0.seen ≡ pass.old.seat.me.0.seen) }
        ensures fault { IfErr result (IsDispatchFault block.first (end_of pass.old.seat.me.0.seen)) }
    {
        self.take_log(rt, &mut pass.seat, pass.turn[16]);
        let slot = self.table.shared.exchange(&mut pass.seat, 16, Slot::Away);
        let Slot::History(mut log) = slot else {
            unreachable!()
        };
        let added = log.add(block);
        pass.turn[16] = self.give_log(&mut pass.seat, log);
        added
    }

    /// The block after the LSN up to which the pass knows a stripe applied, or that the log ends there.
    pub fn fetch<R: Wait>(
        &self,
        rt: &R,
        pass: &mut Pass<T>,
        stripe: u8,
    ) -> Result<Fetched, NoMemory>
        requires own { pass.old.seat.table_id ≡ self.now.table.shared.table_id }
        requires stripe { stripe < 16 }
        ensures own { (pass.new.seat.table_id ≡ pass.old.seat.table_id) × (pass.new.seat.id ≡ pass.old.seat.id) }
        ensures visited { LogVisited pass.old.seat.me pass.new.seat.me }
        ensures fetched { IfOk result (IsFetched pass.new.seat.me.0.seen (slice_index pass.new.seat.me.0.done stripe)) }
    {
        let done = pass.done[usize::from(stripe)];
        self.take_log(rt, &mut pass.seat, pass.turn[16]);
        let slot = self.table.shared.exchange(&mut pass.seat, 16, Slot::Away);
        let Slot::History(log) = slot else {
            unreachable!()
        };
        let fetched = log.block_after(self.alloc, done);
        pass.turn[16] = self.give_log(&mut pass.seat, log);
        fetched
    }

    /// Takes the log, and answers the turn word then.
    fn take_log<R: Wait>(&self, rt: &R, seat: &mut FrontSeat<T>, turn: u64) -> u64
        requires own { (seat.old.table_id ≡ self.now.table.shared.table_id) × (turn ≡ slice_index seat.old.me.0.turn 16) }
        requires free { (seat.old.me.1 ≡ []) × (seat.old.me.0.hand ≡ 0) × (0 < seat.old.me.0.parts) }
        ensures own { (seat.new.table_id ≡ seat.old.table_id) × (seat.new.id ≡ seat.old.id) }
        ensures taken { TookLog result seat.old.me seat.new.me }
    {
        let mut turn = turn;
        for _ in rt.forever() {
            if turn >= LAST_TURN {
                thread::yield_now();
                continue;
            }
            let start = turn + turn % 2;
            let shared = &self.table.shared;
            let found = shared.compare_exchange::<TakeLog>(seat, 32, start, start + 1);
            if found == start {
                return start + 1;
            }
            turn = found;
            thread::yield_now();
        }
        unreachable!()
    }

    /// Gives the log back, and answers the turn word then.
    fn give_log(&self, seat: &mut FrontSeat<T>, log: History) -> u64
        requires own { (seat.old.table_id ≡ self.now.table.shared.table_id) × (0 < seat.old.me.0.parts) }
        requires held { (seat.old.me.1 ≡ (16, Away) ∷ []) × (seat.old.me.0.hand ≡ 17) }
        requires log { MayGive seat.old.me.0 log }
        ensures own { (seat.new.table_id ≡ seat.old.table_id) × (seat.new.id ≡ seat.old.id) }
        ensures home { seat.new.me ≡ (record seat.old.me.0 { seen = log; turn = slice_set seat.old.me.0.turn 16 result; hand = 0 }, []) }
        ensures sound { IsSound seat.new.me.0 }
    {
        let shared = &self.table.shared;
        let left = shared.exchange(seat, 16, Slot::History(log));
        let Slot::Away = left else { unreachable!() };
        let found = shared.fetch_add::<GiveLog>(seat, 32, 1);
        found + 1
    }
}
