//! The pages that records touch.
ghost use Rattle.std.specs.Prelude.{◌≡◌, ◌≤◌, ◌<◌, ◌==◌, ◌||◌, ℕ, Bool, drop};
ghost use Rattle.std.specs.List.{list_any, AllByRecursion};
ghost use Rattle.ag_model.specs.Rows.{page_of, touches, contains};
ghost use Rattle.ag_model.specs.PageSets.{pages_where};
ghost use Rattle.ag_revert.specs.Touched.{touched_after};
ghost use Rattle.ag_record.specs.Spelling.{IsPage, HasSpelling, HaveSpelling};

use ag_model::page_set::PageSet;
use ag_model::record::{Log, Record};

/// The pages that the records of a log after an LSN touch, where the database has so many data pages.
///
/// A Put or a Del touches the page of its key, a Trim its page, a Commit or an Abort each page that it lists.
pub fn touched(log: &Log, after: u64, pages: u16) -> PageSet
    requires least { 16 ≤ pages }
    requires most { pages ≤ 2048 }
    requires spelled { HaveSpelling log.now.records }
    ensures { result ≡ touched_after pages log.now.records after }
{
    let records = rest_after(log.records.as_slice(), after);
    let mut set = PageSet::empty();
    for entry in records {
        touch(&mut set, entry, pages);
    }
    set
}

/// The records after an LSN.
fn rest_after(records: &[Record], after: u64) -> &[Record]
    ensures { result.now ≡ drop after records.now }
{
    let start = (after as usize).min(records.len());
    &records[start..]
}

/// Puts the pages that a record touches into a set.
fn touch(set: &mut PageSet, entry: &Record, pages: u16)
    requires least { 16 ≤ pages }
    requires most { pages ≤ 2048 }
    requires spelled { HasSpelling entry.now }
    ensures { (q : ℕ → Bool) → set.old ≡ pages_where q → set.new ≡ pages_where (λ p. q p || touches pages p entry.now) }
{
    match entry {
        Record::Put { key, .. } | Record::Del { key, .. } => add(set, page_of(*key, pages)),
        Record::Commit { pages: listed, .. } | Record::Abort { pages: listed, .. } => {
            insert_all(set, listed.as_slice());
        }
        Record::Trim { page, .. } => add(set, *page),
        Record::Term { .. } => {}
    }
}

/// The page of a key.
fn page_of(key: u32, pages: u16) -> u16
    requires least { 16 ≤ pages }
    requires most { pages ≤ 2048 }
    ensures page { result ≡ page_of pages key }
    ensures is { IsPage result }
{
    16 + (key % u32::from(pages)) as u16
}

/// Puts some pages into a set.
fn insert_all(set: &mut PageSet, listed: &[u16])
    requires { AllByRecursion IsPage listed.now }
    ensures { (q : ℕ → Bool) → set.old ≡ pages_where q → set.new ≡ pages_where (λ p. q p || contains p listed.now) }
{
    for page in listed {
        add(set, *page);
    }
}

/// Puts a page into a set.
fn add(set: &mut PageSet, page: u16)
    requires { IsPage page }
    ensures { (q : ℕ → Bool) → set.old ≡ pages_where q → set.new ≡ pages_where (λ p. q p || (p == page)) }
{
    set.insert(page);
}
