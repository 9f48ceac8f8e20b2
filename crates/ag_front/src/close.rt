//! The end of a front.
ghost use Rattle.std.specs.Prelude.{◌≡◌, IfOk, IfErr};
ghost use Rattle.ag_front.specs.Closes.{ClosedStripes};

use crate::passes::Pass;
use crate::rule::Slot;
use crate::shared::Front;
use ag_model::record::Log;
use ag_model::stands::Stands;

impl<T: Stands> Front<T> {
    /// Hands back the stripes in order, and the log. A pass with all parts does it. Front and pass come back
    /// where memory is refused.
    pub fn close(self, pass: Pass<T>) -> Result<(Vec<T>, Log), (Front<T>, Pass<T>)>
        requires own { pass.seat.table_id ≡ self.table.shared.table_id }
        requires parts { pass.seat.me.0.parts ≡ 4096 }
        ensures log { IfOk result (λ r. r.1 ≡ pass.seat.me.0.seen) }
        ensures stripes { IfOk result (λ r. ClosedStripes T.standing pass.seat.me.0 r.0.items 16) }
        ensures err { IfErr result (λ r. (r.0 ≡ self) × (r.1 ≡ pass)) }
    {
        let Ok(mut stripes) = Vec::with_capacity(self.alloc, 16) else {
            return Err((self, pass));
        };
        let Front { table, alloc: _ } = self;
        let Pass {
            seat,
            done: _,
            turn: _,
            pages: _,
        } = pass;
        let mut closed = table.close_with(seat);
        for k in 0..16 {
            let slot = closed.take(k);
            let Slot::Stripe(stripe) = slot else {
                unreachable!()
            };
            stripes.push_reserved(stripe);
        }
        let slot = closed.take(16);
        let Slot::History(history) = slot else {
            unreachable!()
        };
        closed.free();
        Ok((stripes, history.into_log()))
    }
}
