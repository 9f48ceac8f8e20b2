//! Prints what steps gave.
use ag_model::value::{PageValue, Row, TooOld};
use std::io;

/// Whether all bytes are this one.
fn are_all(bytes: &[u8], byte: u8) -> bool {
    for b in bytes {
        if *b != byte {
            return false;
        }
    }
    true
}

/// Prints bytes. More than 16 that are all the same are counted.
pub fn hex(rt: &HostRuntime, bytes: &[u8]) -> io::Result<()> {
    if let [first, ..] = bytes {
        if bytes.len() > 16 && are_all(bytes, *first) {
            return print!(rt; ": {} of {first:02x}", bytes.len());
        }
    }
    print!(rt; ": ")?;
    for b in bytes {
        print!(rt; "{b:02x}")?;
    }
    Ok(())
}

/// Prints a row: the length of its value and the bytes up to there, and whether any after them isn't zero.
pub fn row(rt: &HostRuntime, row: &Result<Row, TooOld>) -> io::Result<()> {
    match row {
        Ok(Row::Found(value)) => {
            let (bytes, rest) = value.bytes.split_at(usize::from(value.len.min(64)));
            hex(rt, bytes)?;
            if are_all(rest, 0) {
                Ok(())
            } else {
                print!(rt; " and more")
            }
        }
        Ok(Row::Absent) => print!(rt; ": absent"),
        Err(e) => print!(rt; ": {e:?}"),
    }
}

/// Prints the LSN, the horizon and the number of versions of a page, and the LSN and the commit of each where they are few.
pub fn versions(rt: &HostRuntime, v: &PageValue) -> io::Result<()> {
    let versions = v.versions.as_slice();
    print!(rt;
        ": LSN {}, horizon {}, {} versions",
        v.lsn,
        v.horizon,
        versions.len()
    )?;
    if versions.len() <= 8 {
        for w in versions {
            print!(rt; " {}/{}", w.lsn, w.commit)?;
        }
    }
    Ok(())
}
