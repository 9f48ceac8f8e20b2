//! A front and its passes, each with what its calls require as a fact of its type, so that the calls here have no clauses.
ghost use Rattle.std.specs.Prelude.{◌≡◌, ◌≤◌, true};
ghost use Rattle.atomic_table.specs.Seated.{TableId};
ghost use Rattle.ag_model.specs.Stripes.{opening_log};
ghost use Rattle.ag_threads_t.specs.Script.{IsScript};

use crate::blocks::{Write, block_of, trimming_block};
use ag_front::fault::{Busy, DispatchFault, Fetched, FrontReadFault};
use ag_front::passes::Pass;
use ag_front::shared::Front;
use ag_model::record::Log;
use ag_model::stands::Steps;
use ag_model::value::{NoMemory, Row, TooOld};
use std::alloc::Global;
use std::marker::{Brand, PhantomData};
use std::sync::Wait;

/// How many parts the first pass of a front has.
pub const ALL_PARTS: u32 = 4096;

/// How many transactions an author may dispatch.
pub const MOST: u64 = 200;

/// Which table a front has. Each call that opens one picks it.
pub trait Naming {
    ghost table: { TableId };
}

impl Naming for Brand {
    ghost use Rattle.std.specs.Prelude.{[]};

    ghost table = { record { words = 33; slots = 17; views_name = 0; atom = 0; block = 0; offset = 0; slot_names = [] } };
}

/// A front.
#[derive(Drop)]
pub struct Bench<T: Steps, N: Naming> {
    front: Front<T>,
    of: PhantomData<N>,
    pub ghost named: { front.table.shared.table_id ≡ N.table },
}

/// A pass at it.
#[derive(Drop)]
pub struct Hand<T: Steps, N: Naming> {
    pass: Pass<T>,
    parts: u32,
    of: PhantomData<N>,
    pub ghost named: { pass.seat.table_id ≡ N.table },
    pub ghost counted: { pass.seat.me.0.parts ≡ parts },
}

/// The pass that makes the log longer, and how many transactions it has dispatched.
#[derive(Drop)]
pub struct Author<T: Steps, N: Naming> {
    hand: Hand<T, N>,
    done: u64,
    pub ghost author: { hand.pass.seat.me.0.author ≡ true },
    pub ghost paged: { hand.pass.seat.me.0.pages ≡ 16 },
    pub ghost written: { IsScript done hand.pass.seat.me.0.seen },
    pub ghost few: { done ≤ 200 },
}

/// What a fetch found: where the block starts, its term and how many records it has, or None where a stripe is up to date.
pub type Found = Option<(u64, u64, usize)>;

/// A front at the opening log, and its first pass as two: the author with one part, and another one with all others.
pub fn begin<T: Steps, N: Naming>(
    front: Front<T>,
    mut pass: Pass<T>,
) -> (Bench<T, N>, Author<T, N>, Hand<T, N>)
    requires front { front.table.shared.table_id ≡ N.table }
    requires pass { (pass.seat.table_id ≡ N.table) × (pass.seat.me.0.parts ≡ 4096) × (pass.seat.me.0.author ≡ true) }
    requires seen { (pass.seat.me.0.seen ≡ opening_log) × (pass.seat.me.0.pages ≡ 16) }
{
    let other = front.split(&mut pass, ALL_PARTS - 1);
    let bench = Bench {
        front,
        of: PhantomData,
    };
    let author = Hand {
        pass,
        parts: 1,
        of: PhantomData,
    };
    let hand = Hand {
        pass: other,
        parts: ALL_PARTS - 1,
        of: PhantomData,
    };
    (
        bench,
        Author {
            hand: author,
            done: 0,
        },
        hand,
    )
}

/// The stripes and the log, where the pass has all parts.
pub fn close<T: Steps, N: Naming>(bench: Bench<T, N>, hand: Hand<T, N>) -> Option<(Vec<T>, Log)> {
    let Bench { front, of: _ } = bench;
    let Hand { pass, parts, of: _ } = hand;
    if parts != ALL_PARTS {
        return None;
    }
    front.close(pass).ok()
}

impl<T: Steps, N: Naming> Hand<T, N> {
    /// The front.
    pub fn front(&mut self, bench: &Bench<T, N>) -> u64 {
        bench.front.front(&mut self.pass)
    }

    /// The row of a key at an LSN, where that isn't past the front.
    pub fn try_read(
        &mut self,
        bench: &Bench<T, N>,
        key: u32,
        at: u64,
    ) -> Option<Result<Row, FrontReadFault>> {
        if at <= bench.front.front(&mut self.pass) {
            Some(bench.front.try_read(&mut self.pass, key, at))
        } else {
            None
        }
    }

    /// The front and the row of a key there.
    pub fn read<R: Wait>(
        &mut self,
        rt: &R,
        bench: &Bench<T, N>,
        key: u32,
    ) -> Result<(u64, Row), TooOld> {
        bench.front.read(rt, &mut self.pass, key)
    }

    /// What the next block of a stripe is.
    pub fn fetch<R: Wait>(
        &mut self,
        rt: &R,
        bench: &Bench<T, N>,
        stripe: u8,
    ) -> Option<Result<Found, NoMemory>> {
        if stripe >= 16 {
            return None;
        }
        match bench.front.fetch(rt, &mut self.pass, stripe) {
            Ok(Fetched::Next(block)) => {
                Some(Ok(Some((block.first, block.term, block.records.len()))))
            }
            Ok(Fetched::UpToDate) => Some(Ok(None)),
            Err(e) => Some(Err(e)),
        }
    }

    /// Fetches the next block of a stripe and brings the stripe through it. None where there is no such block.
    pub fn apply<R: Wait>(
        &mut self,
        rt: &R,
        bench: &Bench<T, N>,
        stripe: u8,
    ) -> Option<Result<u64, Busy>> {
        if stripe >= 16 {
            return None;
        }
        match bench.front.fetch(rt, &mut self.pass, stripe) {
            Ok(Fetched::Next(block)) => {
                Some(bench.front.try_apply(&mut self.pass, stripe, &block))
            }
            _ => None,
        }
    }

    /// Raises the word of a stripe.
    pub fn raise(&mut self, bench: &Bench<T, N>, stripe: u8) -> Option<u64> {
        if stripe < 16 {
            Some(bench.front.raise(&mut self.pass, stripe))
        } else {
            None
        }
    }

    /// A pass with so many of this one's parts, where fewer than all are asked for.
    pub fn split(&mut self, bench: &Bench<T, N>, parts: u32) -> Option<Hand<T, N>> {
        if parts == 0 || parts >= self.parts {
            return None;
        }
        let pass = bench.front.split(&mut self.pass, parts);
        self.parts -= parts;
        Some(Hand {
            pass,
            parts,
            of: PhantomData,
        })
    }

    /// Takes in another pass.
    pub fn join(&mut self, bench: &Bench<T, N>, other: Hand<T, N>) {
        let Hand { pass, parts, of: _ } = other;
        let Some(parts) = self.parts.checked_add(parts) else {
            return;
        };
        bench.front.join(&mut self.pass, pass);
        self.parts = parts;
    }
}

impl<T: Steps, N: Naming> Author<T, N> {
    /// Dispatches the next transaction as a block that starts there.
    pub fn put<R: Wait>(
        &mut self,
        rt: &R,
        alloc: Global,
        bench: &Bench<T, N>,
        first: u64,
        write: &Write,
    ) -> Option<Result<u64, DispatchFault>> {
        if self.done >= MOST {
            return None;
        }
        let Ok(block) = block_of(alloc, first, self.done + 1, write) else {
            return Some(Err(DispatchFault::NoMemory));
        };
        match bench.front.dispatch(rt, &mut self.hand.pass, block) {
            Ok(end) => {
                self.done += 1;
                Some(Ok(end))
            }
            Err(fault) => Some(Err(fault)),
        }
    }

    /// Dispatches the block with a Trim, where nothing was dispatched. The author is a plain pass then.
    pub fn trim<R: Wait>(
        self,
        rt: &R,
        alloc: Global,
        bench: &Bench<T, N>,
    ) -> (Option<Result<u64, DispatchFault>>, Hand<T, N>) {
        let Author { mut hand, done } = self;
        if done != 0 {
            return (None, hand);
        }
        let Ok(block) = trimming_block(alloc) else {
            return (Some(Err(DispatchFault::NoMemory)), hand);
        };
        let end = bench.front.dispatch(rt, &mut hand.pass, block);
        (Some(end), hand)
    }

    /// The author's pass.
    pub fn into_hand(self) -> Hand<T, N> {
        let Author { hand, done: _ } = self;
        hand
    }
}
