//! The first line of a transcript.
ghost use Rattle.std.specs.Prelude.{◌≡◌, ◌++◌, OnOk};
ghost use Rattle.ag_transcript.specs.Transcript.{header_text};

use crate::text::{put_named, put_text};
use crate::words::put_list;
use ag_model::config::Config;
use ag_model::value::NoMemory;

/// Adds the first line of a transcript at the end of `out`, without its end. The line is this
/// project's own.
///
/// An error leaves open what `out` has, which may be a part of the line.
pub fn print_header(c: &Config, out: &mut Vec<u8>) -> Result<(), NoMemory>
    ensures { OnOk result (out.new.items ≡ out.old.items ++ header_text c.now) }
{
    put_named(b"aglab 1 pages=", u64::from(c.pages), out)?;
    put_text(b" replicas=", out)?;
    put_list(c.modes.as_slice(), out)
}
