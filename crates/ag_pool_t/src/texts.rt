//! A pool as text.
use ag_model::value::{Change, Version};
use ag_pool::Pool;
use std::alloc::{AllocError, Global};

/// One version: its LSN, its transaction, the LSN of the Commit, its key, and the first byte of what was put.
fn version_text(alloc: Global, version: &Version) -> Result<String, AllocError> {
    let change = match &version.change {
        Change::Put(value) => format!(in alloc; "{:02x}", value.bytes[0])?,
        Change::Del => format!(in alloc; "del")?,
    };
    format!(in alloc;
        " {}:{}:{}:{}:{change}",
        version.lsn, version.txn, version.commit, version.key
    )
}

/// The value of a page, with its LSN, its horizon and its versions, or `-`.
pub fn value_text(alloc: Global, pool: &Pool, page: u16) -> Result<String, AllocError> {
    if page < 16 || page >= 16 + pool.pages() || !pool.has(page) {
        return format!(in alloc; "-");
    }
    let value = pool.value(page);
    let mut text = format!(in alloc; "page {} {} {}", value.page, value.lsn, value.horizon)?;
    for version in value.versions.as_slice() {
        let one = version_text(alloc, version)?;
        text.push_str(&one)?;
    }
    Ok(text)
}

/// The LSN of the value that a frame has, or `-`.
fn lsn_text(alloc: Global, pool: &Pool, page: u16) -> Result<String, AllocError> {
    if page < 16 || page >= 16 + pool.pages() || !pool.has(page) {
        return format!(in alloc; "-");
    }
    format!(in alloc; "{}", pool.value(page).lsn)
}

/// The frame of a page: the LSN of its value, its marks, and the LSN of the page that it holds.
pub fn frame_text(alloc: Global, pool: &Pool, page: u16) -> Result<String, AllocError> {
    if page < 16 || page >= 16 + pool.pages() {
        return format!(in alloc; "refused");
    }
    let value = lsn_text(alloc, pool, page)?;
    let frame = pool.frame(page);
    let held = match &frame.held {
        Some(held) => format!(in alloc; "{}", held.lsn)?,
        None => format!(in alloc; "-")?,
    };
    format!(in alloc;
        "value={value} dirty={} pending={} held={held} came={}",
        frame.dirty, frame.pending, frame.came
    )
}

/// The LSNs of each stripe, applied and published, the least applied one and the front.
pub fn stripes_text(alloc: Global, pool: &Pool) -> Result<String, AllocError> {
    let mut text = format!(in alloc;
        "pages={} least={} front={}",
        pool.pages(),
        pool.least_applied(),
        pool.front()
    )?;
    for stripe in 0..16u8 {
        let one = format!(in alloc; " {}/{}", pool.applied(stripe), pool.published(stripe))?;
        text.push_str(&one)?;
    }
    Ok(text)
}
