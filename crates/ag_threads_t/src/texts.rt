//! What calls answer, as text.
use crate::hands::Found;
use ag_front::fault::FrontReadFault;
use ag_model::value::{NoMemory, Row, TooOld};
use std::alloc::{AllocError, Global};

/// A row: the bytes of its value.
pub fn row(alloc: Global, row: &Row) -> Result<String, AllocError> {
    match row {
        Row::Absent => format!(in alloc; "Absent"),
        Row::Found(value) => {
            let mut text = format!(in alloc; "Found")?;
            for i in 0..usize::from(value.len.min(64)) {
                text.push_str(format!(in alloc; " {}", value.bytes[i])?.as_str())?;
            }
            Ok(text)
        }
    }
}

/// What one try to read was answered.
pub fn tried(
    alloc: Global,
    answer: &Option<Result<Row, FrontReadFault>>,
) -> Result<String, AllocError> {
    match answer {
        Some(Ok(found)) => row(alloc, found),
        Some(Err(fault)) => format!(in alloc; "{fault:?}"),
        None => format!(in alloc; "past the front"),
    }
}

/// What a read was answered, after the front.
pub fn read(alloc: Global, answer: &Result<(u64, Row), TooOld>) -> Result<String, AllocError> {
    match answer {
        Ok((at, found)) => {
            let found = row(alloc, found)?;
            format!(in alloc; "{at} {found}")
        }
        Err(fault) => format!(in alloc; "{fault:?}"),
    }
}

/// What a fetch found.
pub fn fetched(
    alloc: Global,
    answer: &Option<Result<Found, NoMemory>>,
) -> Result<String, AllocError> {
    match answer {
        Some(Ok(Some((first, term, records)))) => {
            format!(in alloc; "{records} records from {first} of term {term}")
        }
        Some(Ok(None)) => format!(in alloc; "UpToDate"),
        Some(Err(fault)) => format!(in alloc; "{fault:?}"),
        None => format!(in alloc; "no stripe"),
    }
}
