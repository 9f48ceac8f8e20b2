//! Sets of pages as words, with commas between the pages, and as text.
use ag_model::page_set::PageSet;
use std::alloc::{AllocError, Global};

/// The set of the pages that a word lists, as far as they can be in one.
pub fn set_of(word: &str) -> PageSet {
    let mut set = PageSet::empty();
    for page in word.split(',') {
        let page = page.parse::<u16>().unwrap_or(0);
        if page >= 16 && page < 2064 {
            set.insert(page);
        }
    }
    set
}

/// The pages of a set.
pub fn said_set(alloc: Global, set: &PageSet) -> Result<String, AllocError> {
    let mut pages = Vec::new(alloc);
    for page in 16..2064u16 {
        if set.has(page) {
            pages.push(page)?;
        }
    }
    format!(in alloc; "{pages:?}")
}
