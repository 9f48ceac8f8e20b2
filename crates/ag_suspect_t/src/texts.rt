//! What a list and a sector are as text.
use ag_suspect::Suspects;
use std::alloc::{AllocError, Global};

/// The rows from a place on, at most so many, each as `page:kind:count:repaired`.
fn some_rows(
    alloc: Global,
    list: &Suspects,
    from: usize,
    most: usize,
) -> Result<String, AllocError> {
    let mut text = String::new(alloc);
    match list.rows() {
        Ok(rows) => {
            for row in rows.as_slice().iter().skip(from).take(most) {
                let repaired = u8::from(row.repaired);
                let one = format!(in alloc; " {}:{}:{}:{repaired}", row.page, row.kind, row.count)?;
                text.push_str(&one)?;
            }
            Ok(text)
        }
        Err(_) => format!(in alloc; " no memory"),
    }
}

/// How many rows a list has, and its first and last ones.
pub fn list_text(alloc: Global, list: &Suspects) -> Result<String, AllocError> {
    let count = list.len();
    let first = some_rows(alloc, list, 0, 4)?;
    if count <= 4 {
        return format!(in alloc; "{count}{first}");
    }
    let last = some_rows(alloc, list, count - 1, 1)?;
    format!(in alloc; "{count}{first} ..{last}")
}
