//! A stripe that is lent a home of images for one call. What came of it is put behind a reference, so that a caller's proof
//! can follow the home.
ghost use Rattle.std.specs.Prelude.{◌≡◌, ◌+◌, ◌<◌, ◌^◌, ◌||◌, ℕ, true, false, length, Err, OnOk, IfOk, IfErr, IfSome, IsSome};
ghost use Rattle.ag_model.specs.declared.record.Log.{Log};
ghost use Rattle.ag_model.specs.Rows.{page_of};
ghost use Rattle.ag_page.specs.Home.{HasRisen};
ghost use Rattle.ag_stripe.specs.declared.fault.StripeFault.TheVariants.{Bad, Home};
ghost use Rattle.ag_stripe.specs.Ahead.{IsAhead, AreNext};
ghost use Rattle.ag_stripe.specs.Answers.{IsRow, IsRowFault, IsImageOf, IsImageFault, IsApplyFault};
ghost use Rattle.ag_stripe.specs.Known.{Says, known};
ghost use Rattle.ag_stripe.specs.Known.Known.{Value, NotSound};
ghost use Rattle.ag_stripe.specs.Reading.{OnlyReads, WasRead, HasPages, IsFaultOf};
ghost use Rattle.ag_stripe.specs.Redo.{is_touched, AreDirtyKept};
ghost use Rattle.ag_stripe.specs.Tables.{is_own, is_dirty, slot_of, IsSameTable};

use ag_model::record::Record;
use ag_model::value::{PageValue, Row};
use ag_page::{Image, PageHome};
use ag_stripe::{Away, Stripe, StripeFault};

/// The row of a key at a snapshot, by the stripe of its page.
pub(crate) fn row_at<H: PageHome>(
    stripe: Stripe<Away>,
    home: H,
    key: u32,
    snapshot: u64,
    came: &mut Option<(Stripe<Away>, Result<Row, StripeFault>)>,
) -> H
    requires own { is_own stripe.table (page_of stripe.table.pages key) ≡ true }
    requires home { HasPages H.has_page stripe.table home }
    ensures row { IfSome came.new (λ b. IfOk b.1 (IsRow key snapshot (known (H.told home) stripe.table (page_of stripe.table.pages key)))) }
    ensures fault { IfSome came.new (λ b. IfErr b.1 (IsRowFault (page_of stripe.table.pages key) snapshot (known (H.told home) stripe.table (page_of stripe.table.pages key)))) }
    ensures reads { IfSome came.new (λ b. OnlyReads (H.told home) stripe.table b.0.table) }
    ensures applied { IfSome came.new (λ b. b.0.applied ≡ stripe.applied) }
    ensures came { IsSome came.new }
    ensures home { WasRead H.has_page H.told H.faults H.refusals H.leaves home result }
    ensures cause { IfSome came.new (λ b. b.1 ≡ Err Home → HasRisen (H.faults home) (H.faults result)) }
{
    let mut lent = stripe.lend(home);
    let answer = lent.row_at(key, snapshot);
    let (stripe, home) = lent.take_back();
    *came = Some((stripe, answer));
    home
}

/// The value of a page, by its stripe.
pub(crate) fn value_of<H: PageHome>(
    stripe: Stripe<Away>,
    home: H,
    page: u16,
    came: &mut Option<(Stripe<Away>, Result<PageValue, StripeFault>)>,
) -> H
    requires own { is_own stripe.table page ≡ true }
    requires home { HasPages H.has_page stripe.table home }
    ensures value { IfSome came.new (λ b. IfOk b.1 (λ v. Says (known (H.told home) stripe.table page) (Value v))) }
    ensures fault { IfSome came.new (λ b. IfErr b.1 (IsFaultOf page (known (H.told home) stripe.table page))) }
    ensures reads { IfSome came.new (λ b. OnlyReads (H.told home) stripe.table b.0.table) }
    ensures applied { IfSome came.new (λ b. b.0.applied ≡ stripe.applied) }
    ensures came { IsSome came.new }
    ensures home { WasRead H.has_page H.told H.faults H.refusals H.leaves home result }
    ensures cause { IfSome came.new (λ b. b.1 ≡ Err Home → HasRisen (H.faults home) (H.faults result)) }
{
    let mut lent = stripe.lend(home);
    let answer = lent.value_of(page);
    let (stripe, home) = lent.take_back();
    *came = Some((stripe, answer));
    home
}

/// The image of a page, by its stripe.
pub(crate) fn image_of<H: PageHome>(
    stripe: Stripe<Away>,
    home: H,
    page: u16,
    out: &mut Image,
    came: &mut Option<(Stripe<Away>, Result<(), StripeFault>)>,
) -> H
    requires own { is_own stripe.table page ≡ true }
    requires home { HasPages H.has_page stripe.table home }
    ensures image { IfSome came.new (λ b. OnOk b.1 (IsImageOf (known (H.told home) stripe.table page) out.new)) }
    ensures fault { IfSome came.new (λ b. IfErr b.1 (IsImageFault page (known (H.told home) stripe.table page))) }
    ensures reads { IfSome came.new (λ b. OnlyReads (H.told home) stripe.table b.0.table) }
    ensures applied { IfSome came.new (λ b. b.0.applied ≡ stripe.applied) }
    ensures came { IsSome came.new }
    ensures home { WasRead H.has_page H.told H.faults H.refusals H.leaves home result }
    ensures cause { IfSome came.new (λ b. b.1 ≡ Err Home → HasRisen (H.faults home) (H.faults result)) }
{
    let mut lent = stripe.lend(home);
    let answer = lent.image_of(page, out);
    let (stripe, home) = lent.take_back();
    *came = Some((stripe, answer));
    home
}

/// Applies the next records of the log to the pages of a stripe.
pub(crate) fn redo<H: PageHome>(
    stripe: Stripe<Away>,
    home: H,
    records: &[Record],
    came: &mut Option<(Stripe<Away>, Result<(), StripeFault>)>,
) -> H
    requires room { stripe.applied + length records.now < 2 ^ 64 }
    requires home { HasPages H.has_page stripe.table home }
    ensures values { IfSome came.new (λ b. OnOk b.1 ((log : Log) (page : ℕ) → AreNext stripe.table.pages stripe.applied log records.now → is_own stripe.table page ≡ true
        → IsAhead stripe.table.pages log stripe.applied page (known (H.told home) stripe.table page)
        → IsAhead stripe.table.pages log b.0.applied page (known (H.told home) b.0.table page))) }
    ensures others { IfSome came.new (λ b. OnOk b.1 ((page : ℕ) → is_touched stripe.table records.now page ≡ false → slot_of b.0.table page ≡ slot_of stripe.table page)) }
    ensures dirty { IfSome came.new (λ b. OnOk b.1 ((page : ℕ) → is_dirty b.0.table page ≡ (is_dirty stripe.table page || is_touched stripe.table records.now page))) }
    ensures applied { IfSome came.new (λ b. OnOk b.1 (b.0.applied ≡ stripe.applied + length records.now)) }
    ensures same { IfSome came.new (λ b. IsSameTable stripe.table b.0.table) }
    ensures sound { IfSome came.new (λ b. OnOk b.1 ((page : ℕ) → is_touched stripe.table records.now page ≡ true → known (H.told home) stripe.table page ≡ NotSound → ⊥)) }
    ensures fault { IfSome came.new (λ b. IfErr b.1 (IsApplyFault (H.told home) stripe.table stripe.applied records.now)) }
    ensures unchanged { IfSome came.new (λ b. (page : ℕ) → b.1 ≡ Err (Bad page) → OnlyReads (H.told home) stripe.table b.0.table × (b.0.applied ≡ stripe.applied)) }
    ensures kept { IfSome came.new (λ b. AreDirtyKept stripe.table → AreDirtyKept b.0.table) }
    ensures came { IsSome came.new }
    ensures home { WasRead H.has_page H.told H.faults H.refusals H.leaves home result }
    ensures cause { IfSome came.new (λ b. b.1 ≡ Err Home → HasRisen (H.faults home) (H.faults result)) }
{
    let mut lent = stripe.lend(home);
    let answer = lent.redo(records);
    let (stripe, home) = lent.take_back();
    *came = Some((stripe, answer));
    home
}
