//! Versions that are taken off a page.
ghost use Rattle.std.specs.Prelude.{◌≡◌, ◌==◌, ◌≤◌, not, Bool, List};
ghost use Rattle.ag_model.specs.declared.value.Version.{Version};
ghost use Rattle.ag_model.specs.declared.value.PageValue.{PageValue};
ghost use Rattle.ag_page.specs.Image.{image_bytes, marks};
ghost use Rattle.ag_version.specs.Edits.{after_abort};
ghost use Rattle.ag_inplace.specs.Spelled.{Spells, IsPage};
ghost use Rattle.ag_inplace.specs.Listing.{Lists, IsListed};
ghost use Rattle.ag_inplace.specs.Flags.{Flags, kept};

use crate::directory::{Directory, FRONT, directory_of};
use crate::entries::txn_in;
use crate::header::{horizon_in, set_header};
use crate::moving::{clear, move_part};
use ag_page::Image;

/// Which versions are of other transactions.
fn others(i: &Image, d: &Directory, txn: u64) -> [bool; 272]
    requires { IsListed (image_bytes i.now) d.now }
    ensures { (versions : List Version) → Lists (image_bytes i.now) d.now versions → Flags (λ w. not (w.txn == txn)) result versions }
{
    let mut keep = [false; 272];
    for k in 0..usize::from(d.count) {
        keep[k] = txn_in(i, usize::from(d.places[k])) != txn;
    }
    keep
}

/// Leaves on a page the versions that have a flag, and writes its LSN and its horizon.
pub(crate) fn keep_in(i: &mut Image, d: &Directory, keep: &[bool; 272], lsn: u64, horizon: u64)
    requires page { IsPage i.old }
    requires listed { (v : PageValue) → Spells i.old v → Lists (image_bytes i.old) d.now v.versions }
    ensures edit { (v : PageValue) (test : Version → Bool) → Spells i.old v → Flags test keep.now v.versions → Spells i.new (kept test lsn horizon v) }
    ensures marks { marks i.new ≡ marks i.old }
{
    let mut count = 0;
    let mut to = FRONT;
    for k in 0..usize::from(d.count) {
        if keep[k] {
            let (from, end) = (d.places[k], d.places[k + 1]);
            move_part(
                i,
                usize::from(from),
                usize::from(end - from),
                usize::from(to),
            );
            to += end - from;
            count += 1;
        }
    }
    clear(
        i,
        usize::from(to),
        usize::from(d.places[usize::from(d.count)]),
    );
    set_header(i, count, lsn, horizon);
}

/// Takes the versions of a transaction off: what its Abort at this LSN does on a page that it lists.
pub fn abort_in(i: &mut Image, lsn: u64, txn: u64)
    requires { IsPage i.old }
    ensures edit { (v : PageValue) → Spells i.old v → Spells i.new (after_abort lsn txn v) }
    ensures marks { marks i.new ≡ marks i.old }
{
    let horizon = horizon_in(i);
    let d = directory_of(i);
    let keep = others(i, &d, txn);
    keep_in(i, &d, &keep, lsn, horizon);
}
