//! Sets of pages.
use ag_model::page_set::PageSet;
use std::alloc::{AllocError, Global};

/// Whether a page is in a set, if it can be in one.
fn has(set: &PageSet, page: u16) -> Option<bool> {
    if page < 16 || page >= 2064 {
        return None;
    }
    Some(set.has(page))
}

/// Puts a page into a set, if it can be in one.
fn insert(set: &mut PageSet, page: u16) {
    if page >= 16 && page < 2064 {
        set.insert(page);
    }
}

/// The pages of a set.
fn pages_of(alloc: Global, set: &PageSet) -> Result<Vec<u16>, AllocError> {
    let mut pages = Vec::new(alloc);
    for page in 16..2064 {
        if has(set, page) == Some(true) {
            pages.push(page)?;
        }
    }
    Ok(pages)
}

/// A set: whether it is empty, its pages, and each of its bytes that isn't zero.
fn said(alloc: Global, set: &PageSet) -> Result<String, AllocError> {
    let pages = pages_of(alloc, set)?;
    let is_empty = set.is_empty();
    let mut said = format!(in alloc; "{is_empty} {pages:?}")?;
    for (index, byte) in set.to_bytes().iter().enumerate() {
        if *byte != 0 {
            write!(said, " {index}={byte}")?;
        }
    }
    Ok(said)
}

/// The set of some pages, put in one by one, with what it had of each before and after that; then the set of its bytes.
pub fn inserted(alloc: Global, text: &str) -> Result<String, AllocError> {
    let mut set = PageSet::empty();
    let mut told = String::new(alloc);
    for word in text.split_whitespace() {
        let page = word.parse::<u16>().unwrap_or(0);
        let copy = set;
        insert(&mut set, page);
        write!(told, "{:?} {:?}, ", has(&copy, page), has(&set, page))?;
    }
    let once = said(alloc, &set)?;
    let again = said(alloc, &PageSet::from_bytes(&set.to_bytes()))?;
    write!(told, "{once}; {again}")?;
    Ok(told)
}
