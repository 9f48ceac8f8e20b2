//! The words of a line.
ghost use Rattle.std.specs.Prelude.{◌≡◌, ◌++◌, ℕ, List, OnOk};
ghost use Rattle.std.specs.Fmt.{decimal};
ghost use Rattle.ag_transcript.specs.Words.{list_text, role_text, mode_text, cell_text, change_text, version_text, suspect_text, value_text, flag_text};

use crate::text::{put_hex, put_named, put_number, put_text};
use ag_model::answer::{Cell, Role, SuspectRow};
use ag_model::config::Mode;
use ag_model::value::{Change, NoMemory, Value, Version};

/// What has a text of its own in a line.
pub(crate) trait Print {
    ghost text: { Self → List ℕ };

    /// Adds the text at the end.
    fn print(&self, out: &mut Vec<u8>) -> Result<(), NoMemory>
        ensures { OnOk result (out.new.items ≡ out.old.items ++ text self.now) };
}

impl Print for Value {
    ghost text = { value_text };

    fn print(&self, out: &mut Vec<u8>) -> Result<(), NoMemory> {
        if self.len == 0 {
            put_text(b"-", out)?;
            return Ok(());
        }
        let shown = usize::from(self.len).min(self.bytes.len());
        put_hex(&self.bytes[..shown], out)
    }
}

impl Print for Role {
    ghost text = { role_text };

    fn print(&self, out: &mut Vec<u8>) -> Result<(), NoMemory> {
        match self {
            Role::Primary => put_text(b"primary", out)?,
            Role::Secondary => put_text(b"secondary", out)?,
        }
        Ok(())
    }
}

impl Print for Mode {
    ghost text = { mode_text };

    fn print(&self, out: &mut Vec<u8>) -> Result<(), NoMemory> {
        match self {
            Mode::Auto => put_text(b"auto", out)?,
            Mode::Sync => put_text(b"sync", out)?,
            Mode::Async => put_text(b"async", out)?,
        }
        Ok(())
    }
}

impl Print for Cell {
    ghost text = { cell_text };

    fn print(&self, out: &mut Vec<u8>) -> Result<(), NoMemory> {
        match self {
            Cell::Mark(mark) => put_number(u64::from(*mark), out)?,
            Cell::Lost => put_text(b"?", out)?,
        }
        Ok(())
    }
}

impl Print for Change {
    ghost text = { change_text };

    fn print(&self, out: &mut Vec<u8>) -> Result<(), NoMemory> {
        match self {
            Change::Put(value) => value.print(out)?,
            Change::Del => put_text(b"x", out)?,
        }
        Ok(())
    }
}

impl Print for Version {
    ghost text = { version_text };

    fn print(&self, out: &mut Vec<u8>) -> Result<(), NoMemory> {
        put_number(self.lsn, out)?;
        put_named(b":", self.txn, out)?;
        put_named(b":", self.commit, out)?;
        put_named(b":", u64::from(self.key), out)?;
        put_text(b":", out)?;
        self.change.print(out)
    }
}

impl Print for SuspectRow {
    ghost text = { suspect_text };

    fn print(&self, out: &mut Vec<u8>) -> Result<(), NoMemory> {
        put_number(u64::from(self.page), out)?;
        put_named(b":", u64::from(self.kind), out)?;
        put_named(b":", u64::from(self.count), out)?;
        put_text(b":", out)?;
        self.repaired.print(out)
    }
}

impl Print for bool {
    ghost text = { flag_text };

    fn print(&self, out: &mut Vec<u8>) -> Result<(), NoMemory> {
        if *self {
            put_text(b"1", out)
        } else {
            put_text(b"0", out)
        }
    }
}

impl Print for u16 {
    ghost text = { decimal };

    fn print(&self, out: &mut Vec<u8>) -> Result<(), NoMemory> {
        put_number(u64::from(*self), out)
    }
}

/// Adds a list at the end.
pub(crate) fn put_list<T: Print>(items: &[T], out: &mut Vec<u8>) -> Result<(), NoMemory>
    ensures { OnOk result (out.new.items ≡ out.old.items ++ list_text T.text items.now) }
{
    match items {
        [] => put_text(b"-", out),
        [first, others @ ..] => {
            first.print(out)?;
            for item in others {
                put_text(b",", out)?;
                item.print(out)?;
            }
            Ok(())
        }
    }
}
