//! Rows and pages as text.
use ag_kept::KeptFault;
use ag_model::value::{Change, PageValue, Row, Value};
use ag_store::ReadFault;
use std::alloc::{AllocError, Global};

/// How long a value is, and its 64 bytes without the zeros at their end.
fn value_text(alloc: Global, value: &Value) -> Result<String, AllocError> {
    let mut text = format!(in alloc; "{} ", value.len)?;
    let mut zeros = String::new(alloc);
    for byte in &value.bytes {
        if *byte == 0 {
            zeros.push_str("00")?;
        } else {
            text.push_str(&zeros)?;
            zeros.clear();
            text.push_str(&format!(in alloc; "{byte:02x}")?)?;
        }
    }
    Ok(text)
}

/// A row that was read.
pub fn row_text(alloc: Global, row: Option<Result<Row, ReadFault>>) -> Result<String, AllocError> {
    match row {
        None => format!(in alloc; "None"),
        Some(Err(e)) => format!(in alloc; "{e:?}"),
        Some(Ok(Row::Absent)) => format!(in alloc; "absent"),
        Some(Ok(Row::Found(value))) => value_text(alloc, &value),
    }
}

/// A page that was read, with its versions: the LSN, the transaction, the LSN of the Commit, the key and the value.
pub fn page_text(
    alloc: Global,
    page: Option<Result<PageValue, KeptFault>>,
) -> Result<String, AllocError> {
    let page = match page {
        None => return format!(in alloc; "None"),
        Some(Err(e)) => return format!(in alloc; "{e:?}"),
        Some(Ok(page)) => page,
    };
    let mut text = format!(in alloc;
        "page {} lsn {} horizon {}:",
        page.page, page.lsn, page.horizon
    )?;
    for version in page.versions.as_slice() {
        let value = match &version.change {
            Change::Put(value) => value_text(alloc, value)?,
            Change::Del => format!(in alloc; "-")?,
        };
        let place = format!(in alloc;
            " {}:{}:{}:{}:",
            version.lsn, version.txn, version.commit, version.key
        )?;
        text.push_str(&place)?;
        text.push_str(&value)?;
    }
    Ok(text)
}
