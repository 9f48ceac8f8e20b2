//! The kinds of steps on the table, each with what it tells its pass.
ghost use Rattle.ag_front.specs.Slots.{stripe_tried, stripe_given, log_tried, log_given};
ghost use Rattle.ag_front.specs.Steps.{loaded, raised, kept_part, given_part, merged, spent_view};

use crate::rule::Slot;
use crate::view::View;
use ag_model::stands::Stands;
use atomic_table::{Join, Play, Split};
use std::marker::{Brand, PhantomData};

/// A published word was loaded.
pub struct Load;

impl<T> Play<Slot<T>, View> for Load {
    ghost then = { loaded };
}

/// A published word was raised to what the pass knows applied.
pub struct Raise;

impl<T> Play<Slot<T>, View> for Raise {
    ghost then = { raised };
}

/// A number that the caller picks.
pub trait Count {
    ghost use Rattle.std.specs.Prelude.{ℕ};

    ghost count: { ℕ };
}

impl Count for Brand {
    ghost count = { 0 };
}

/// Gives away so many parts.
pub struct Cut<C> {
    count: PhantomData<C>,
}

impl<C: Count> Split<View> for Cut<C> {
    ghost left = { kept_part C.count };

    ghost right = { given_part C.count };
}

/// One pass takes in another.
pub struct Merge;

impl Join<View> for Merge {
    ghost both = { merged };

    ghost spent = { spent_view };
}

/// A stripe was tried for.
pub struct TakeStripe;

impl<T: Stands> Play<Slot<T>, View> for TakeStripe {
    ghost then = { stripe_tried T.standing };
}

/// A stripe was given back.
pub struct GiveStripe;

impl<T: Stands> Play<Slot<T>, View> for GiveStripe {
    ghost then = { stripe_given T.standing };
}

/// The log was tried for.
pub struct TakeLog;

impl<T> Play<Slot<T>, View> for TakeLog {
    ghost then = { log_tried };
}

/// The log was given back.
pub struct GiveLog;

impl<T> Play<Slot<T>, View> for GiveLog {
    ghost then = { log_given };
}
