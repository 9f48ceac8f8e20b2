//! A front at the opening log, over sixteen stripes of one page.
ghost use Rattle.std.specs.Prelude.{◌≡◌, ◌<◌, ◌+◌, [], true, IfOk};
ghost use Rattle.ag_model.specs.Stripes.{opening_log};
ghost use Rattle.ag_front.specs.Opens.{AreStripes, pages_of};

use crate::gate::Gate;
use crate::one_page::OnePage;
use ag_front::open::begin_front;
use ag_front::passes::Pass;
use ag_front::shared::Front;
use ag_model::list::ListOf;
use ag_model::record::{Log, Record};
use ag_model::stands::Stands;
use ag_model::value::{NoMemory, PageValue};
use std::alloc::Global;
use std::sync::Wait;

/// A front, and its first pass.
pub type Opened<'a, R> = (Front<OnePage<'a, R>>, Pass<OnePage<'a, R>>);

/// The log with which a group opens.
fn opening(alloc: Global) -> Result<Log, NoMemory>
    ensures { IfOk result (λ log. log ≡ opening_log) }
{
    let mut records = ListOf::new(alloc);
    records.push(Record::Term { term: 1 })?;
    let mut ends = ListOf::new(alloc);
    ends.push(1)?;
    Ok(Log { records, ends })
}

/// A stripe at the opening log.
fn new_stripe<'a, R: Wait>(rt: &'a R, alloc: Global, gate: &'a Gate, number: u8) -> OnePage<'a, R>
    requires { number < 16 }
    ensures numbers { (result.number ≡ number) × (result.opening ≡ 1) × (result.applied ≡ 1) }
    ensures page { result.value ≡ record { page = 16 + number; lsn = 0; horizon = 0; versions = [] } }
{
    OnePage {
        rt,
        gate,
        number,
        opening: 1,
        applied: 1,
        value: PageValue {
            page: 16 + u16::from(number),
            lsn: 0,
            horizon: 0,
            versions: ListOf::new(alloc),
        },
    }
}

/// Sixteen of them.
fn stripes<'a, R: Wait>(
    rt: &'a R,
    alloc: Global,
    gate: &'a Gate,
) -> Result<Vec<OnePage<'a, R>>, NoMemory>
    ensures stripes { IfOk result (λ v. AreStripes (⟦<OnePage<'a, R> as Stands>⟧.standing) opening_log v.items 16) }
    ensures pages { IfOk result (λ v. pages_of (⟦<OnePage<'a, R> as Stands>⟧.standing) v.items ≡ 16) }
{
    let mut all = Vec::new(alloc);
    for number in 0..16 {
        all.push(new_stripe(rt, alloc, gate, number))?;
    }
    Ok(all)
}

/// A front at the opening log.
pub fn opened<'a, R: Wait>(
    rt: &'a R,
    alloc: Global,
    gate: &'a Gate,
) -> Result<Opened<'a, R>, NoMemory>
    ensures own { IfOk result (λ f. f.1.seat.table_id ≡ f.0.table.shared.table_id) }
    ensures pass { IfOk result (λ f. (f.1.seat.me.0.parts ≡ 4096) × (f.1.seat.me.0.author ≡ true)) }
    ensures seen { IfOk result (λ f. (f.1.seat.me.0.seen ≡ opening_log) × (f.1.seat.me.0.pages ≡ 16)) }
{
    let stripes = stripes(rt, alloc, gate)?;
    let log = opening(alloc)?;
    begin_front(stripes, log)
}
