//! The places of the 16 stripes.
ghost use Rattle.std.specs.Prelude.{◌≡◌, ◌<◌, ◌≤◌, set, None, Some, length, IfOk};
ghost use Rattle.ag_stripe.specs.declared.stripe.Away.{Away};
ghost use Rattle.ag_stripe.specs.View.{StripeView};
ghost use Rattle.ag_pages.specs.Views.{IsAt, AreFresh};

use ag_model::value::NoMemory;
use ag_stripe::{Away, Stripe};
use std::alloc::Global;

/// The place of each stripe. It is empty while the stripe is lent a disk.
pub(crate) type Places = Vec<Option<Stripe<Away>>>;

/// Each stripe with clean pages, none of which is read in.
pub(crate) fn fresh(alloc: Global, pages: u16, applied: u64) -> Result<Places, NoMemory>
    requires low { 16 ≤ pages }
    requires high { pages ≤ 2048 }
    ensures { IfOk result (λ places. AreFresh pages applied 16 places.items) }
{
    let mut places = Vec::new(alloc);
    for stripe in 0..16 {
        let fresh = Stripe::new(alloc, stripe, pages, applied, applied)?;
        places.push(Some(fresh))?;
    }
    Ok(places)
}

/// Takes the stripe of this number out.
pub(crate) fn take_out(places: &mut Places, number: u8) -> Stripe<Away>
    requires there { (s : StripeView Away) × IsAt places.old.items number s }
    requires few { number < length places.old.items }
    ensures at { IsAt places.old.items number result }
    ensures places { places.new.items ≡ set places.old.items number None }
{
    match places[usize::from(number)].take() {
        Some(stripe) => stripe,
        None => unreachable!(),
    }
}

/// Puts a stripe at a place.
pub(crate) fn put_in(places: &mut Places, number: u8, stripe: Stripe<Away>)
    requires { number < length places.old.items }
    ensures { places.new.items ≡ set places.old.items number (Some stripe) }
{
    places[usize::from(number)] = Some(stripe);
}
