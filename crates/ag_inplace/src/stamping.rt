//! Versions that are stamped in place.
ghost use Rattle.std.specs.Prelude.{◌≡◌, ◌+◌, ◌++◌, take, drop};
ghost use Rattle.ag_model.specs.declared.value.Version.{Version};
ghost use Rattle.ag_model.specs.declared.value.PageValue.{PageValue};
ghost use Rattle.ag_model.specs.Sizes.{change_size};
ghost use Rattle.ag_page.specs.Image.{image_bytes, marks};
ghost use Rattle.ag_page.specs.Spelling.{version_spelling};
ghost use Rattle.ag_version.specs.Edits.{stamped, after_commit};
ghost use Rattle.ag_inplace.specs.Spelled.{Spells, IsPage};
ghost use Rattle.ag_inplace.specs.Entries.{StandsAt, IsEntry};

use crate::directory::directory_of;
use crate::entries::txn_in;
use crate::header::{horizon_in, set_header};
use crate::parts::write_part;
use ag_page::Image;

/// Stamps the version at a place, if it is of this transaction.
fn stamp_at(i: &mut Image, at: usize, lsn: u64, txn: u64)
    requires { IsEntry (image_bytes i.old) at }
    ensures bytes { (w : Version) → StandsAt (image_bytes i.old) at w
        → image_bytes i.new ≡ take at (image_bytes i.old) ++ (version_spelling (stamped lsn txn w) ++ drop (at + change_size w.change) (image_bytes i.old)) }
    ensures marks { marks i.new ≡ marks i.old }
{
    if txn_in(i, at) == txn {
        write_part(i, at + 16, &lsn.to_be_bytes());
    }
}

/// Stamps the versions of a transaction: what its Commit at this LSN does on a page that it lists.
pub fn stamp_in(i: &mut Image, lsn: u64, txn: u64)
    requires { IsPage i.old }
    ensures edit { (v : PageValue) → Spells i.old v → Spells i.new (after_commit lsn txn v) }
    ensures marks { marks i.new ≡ marks i.old }
{
    let horizon = horizon_in(i);
    let d = directory_of(i);
    for k in 0..usize::from(d.count) {
        stamp_at(i, usize::from(d.places[k]), lsn, txn);
    }
    set_header(i, d.count, lsn, horizon);
}
