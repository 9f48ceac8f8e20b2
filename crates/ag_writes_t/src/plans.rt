//! Plans of suspect rows, and a batch of one write of each kind.
ghost use Rattle.std.specs.Prelude.{◌≡◌, ◌<◌, IsTrue, length};
ghost use Rattle.std.specs.List.{sum_by};
ghost use Rattle.ag_writes_t.specs.RowHomes.{are_rows};

use ag_model::list::ListOf;
use ag_model::page_set::PageSet;
use ag_model::record::Record;
use ag_writes::{Batch, MasterWords, Write};
use std::alloc::{AllocError, Global};

/// Batches of suspect rows.
#[derive(Drop)]
pub struct RowPlan {
    pub batches: Vec<Batch>,
    ghost rows: { IsTrue (are_rows batches.items) },
    ghost few: { sum_by length batches.items < 1000 },
}

/// A note of a page.
fn note(page: u16, kind: u8) -> Write
    ensures { result ≡ Write.Note page kind }
{
    Write::Note { page, kind }
}

/// A page that is repaired.
fn repaired(page: u16) -> Write
    ensures { result ≡ Write.Repaired page }
{
    Write::Repaired { page }
}

/// One batch of two rows.
fn pair(alloc: Global) -> Result<RowPlan, AllocError> {
    let rows = Batch::new(vec![in alloc; note(16, 1), note(17, 3)]?);
    let batches = vec![in alloc; rows]?;
    Ok(RowPlan { batches })
}

/// Three batches of one row.
fn three(alloc: Global) -> Result<RowPlan, AllocError> {
    let first = Batch::new(vec![in alloc; note(16, 1)]?);
    let second = Batch::new(vec![in alloc; repaired(16)]?);
    let third = Batch::new(vec![in alloc; note(17, 3)]?);
    let batches = vec![in alloc; first, second, third]?;
    Ok(RowPlan { batches })
}

/// A batch of three rows and one of one.
fn four(alloc: Global) -> Result<RowPlan, AllocError> {
    let first = Batch::new(vec![in alloc; note(16, 1), note(17, 3), repaired(16)]?);
    let second = Batch::new(vec![in alloc; note(18, 1)]?);
    let batches = vec![in alloc; first, second]?;
    Ok(RowPlan { batches })
}

/// The plan of this name.
pub fn plan(alloc: Global, name: &str) -> Result<Option<RowPlan>, AllocError> {
    let plan = match name {
        "pair" => pair(alloc)?,
        "three" => three(alloc)?,
        "four" => four(alloc)?,
        _ => return Ok(None),
    };
    Ok(Some(plan))
}

/// A batch of one write of each kind: a block, the master, a note, a repair and a page.
pub fn mixed(alloc: Global) -> Result<Batch, AllocError> {
    let mut new = ListOf::new(alloc);
    new.push(Record::Term { term: 1 })?;
    let master = MasterWords {
        term: 1,
        state: 0,
        incarnation: 1,
        redo_start: 0,
        undo: 0,
        foreign: PageSet::empty(),
    };
    let master = Write::Master { master, log_end: 1 };
    let block = Write::Block { new };
    let page = Write::Page { page: 16 };
    let writes = vec![in alloc; block, master, note(16, 1), repaired(16), page]?;
    Ok(Batch::new(writes))
}
