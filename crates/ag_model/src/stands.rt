//! What a stripe's value is to the layers above: it stands for a prefix of a log.
ghost use Rattle.std.specs.Prelude.{◌≡◌, ◌<◌, ◌≤◌, ◌+◌, ℕ, Bool, false, length, IfOk, MatchResult};
ghost use Rattle.ag_model.specs.declared.record.Log.{Log};
ghost use Rattle.ag_model.specs.declared.value.TooOld.{TooOld};
ghost use Rattle.ag_model.specs.Page.{pick};
ghost use Rattle.ag_model.specs.Proper.{IsProper};
ghost use Rattle.ag_model.specs.Rows.{page_of, stripe_of};
ghost use Rattle.ag_model.specs.Stripes.{Standing, StandsFor, IsNextBlock, IsSameStripe, IsOpeningStripe};

use crate::message::Block;
use crate::value::{NoMemory, Row, TooOld};

/// The value of a stripe. It keeps no records: contracts say for which logs it stands. No call takes memory.
pub trait Stands: Drop {
    ghost standing: { Self → Standing };

    // Whether a value of this type may have bad pages.
    ghost may_be_bad: { Bool };

    /// The LSN that is published first.
    fn opening(&self) -> u64
        ensures answer { result ≡ (standing self.now).opening }
        ensures low { result ≤ (standing self.now).applied };

    /// The applied LSN.
    fn applied(&self) -> u64
        ensures answer { result ≡ (standing self.now).applied };

    /// The number of data pages of the database, from 16 to 2,048.
    fn pages(&self) -> u16
        ensures answer { result ≡ (standing self.now).pages }
        ensures low { 16 ≤ result }
        ensures high { result ≤ 2048 };

    ghost none_bad: { may_be_bad ≡ false → (s : Self) (page : ℕ) → (standing s).is_bad page ≡ false };
}

/// A stripe that is redone and read. No call takes memory, and no page is bad.
pub trait Steps: Stands {
    /// Applies the next block of a log. The answer is the new applied LSN, the block's end.
    fn apply(&mut self, block: &Block) -> u64
        requires next { (log : Log) × IsNextBlock (Self.standing self.old) log block.now }
        ensures stands { (log : Log) → IsNextBlock (Self.standing self.old) log block.now → StandsFor (Self.standing self.new) log }
        ensures applied { (Self.standing self.new).applied ≡ (Self.standing self.old).applied + length block.now.records }
        ensures answer { result ≡ (Self.standing self.new).applied }
        ensures same { IsSameStripe (Self.standing self.old) (Self.standing self.new) };

    /// The row of a key of this stripe at a snapshot, an LSN. TooOld says that the snapshot is below
    /// the horizon of the key's page.
    fn row_at(&mut self, key: u32, snapshot: u64) -> Result<Row, TooOld>
        requires own { stripe_of (page_of (Self.standing self.old).pages key) ≡ (Self.standing self.old).number }
        ensures row { let page = (Self.standing self.old).value (page_of (Self.standing self.old).pages key) in
            MatchResult result
            (λ row. (page.horizon ≤ snapshot) × (row ≡ pick page key snapshot))
            (λ e. (snapshot < page.horizon) × (e ≡ record { snapshot = snapshot; horizon = page.horizon })) }
        ensures stands { (log : Log) → StandsFor (Self.standing self.old) log → StandsFor (Self.standing self.new) log }
        ensures applied { (Self.standing self.new).applied ≡ (Self.standing self.old).applied }
        ensures same { IsSameStripe (Self.standing self.old) (Self.standing self.new) };

    ghost never_bad: { Self.may_be_bad ≡ false };
}

/// Makes the stripes of a database.
pub trait Maker {
    type Made: Steps + Send;

    /// A stripe that stands for the opening log, of so many data pages.
    fn make(&mut self, stripe: u8, pages: u16) -> Result<Self::Made, NoMemory>
        requires stripe { stripe < 16 }
        requires pages { (16 ≤ pages) × (pages ≤ 2048) }
        ensures made { IfOk result (λ made. IsOpeningStripe stripe pages (Self.Made.standing made)) };
}
