//! How far reads may see each stripe of the pages.
ghost use Rattle.std.specs.Prelude.{◌≡◌, ◌<◌, get_or, set, replicate};
ghost use Rattle.ag_rules.specs.Replica.{least};

use std::marker::Model;

/// How many stripes there are. The stripe of a page is its number modulo this one.
const STRIPES: usize = 16;

/// The LSN that each stripe has published.
#[derive(Clone, Copy, Debug)]
pub(crate) struct Published {
    lsns: [u64; STRIPES],
}

impl Model for Published {
    ghost use Rattle.std.specs.Prelude.{List, ℕ};

    ghost Value = { List ℕ };

    ghost view = { λ p. p.lsns };

    ghost inverse = { λ lsns. record { lsns = lsns } };
}

impl Published {
    /// All stripes at one LSN.
    pub(crate) fn all_at(lsn: u64) -> Published
        ensures { result ≡ replicate 16 lsn }
    {
        Published {
            lsns: [lsn; STRIPES],
        }
    }

    /// The LSN up to which reads may see a stripe.
    pub(crate) fn of(&self, stripe: u8) -> u64
        requires { stripe < 16 }
        ensures { result ≡ get_or self.now stripe 0 }
    {
        self.lsns[usize::from(stripe)]
    }

    /// A stripe publishes up to an LSN.
    pub(crate) fn raise(&mut self, stripe: u8, lsn: u64)
        requires { stripe < 16 }
        ensures { self.new ≡ set self.old stripe lsn }
    {
        self.lsns[usize::from(stripe)] = lsn;
    }

    /// The LSN up to which every stripe is published.
    pub(crate) fn front(&self) -> u64
        ensures { result ≡ least self.now }
    {
        let mut front = self.lsns[STRIPES - 1];
        for place in (0..STRIPES - 1).rev() {
            front = front.min(self.lsns[place]);
        }
        front
    }
}
