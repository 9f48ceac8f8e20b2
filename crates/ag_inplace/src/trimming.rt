//! Versions that no reader needs any more, taken off in place.
ghost use Rattle.std.specs.Prelude.{◌≡◌, ◌≤◌, List, not, map, take, length};
ghost use Rattle.ag_model.specs.declared.value.Version.{Version};
ghost use Rattle.ag_model.specs.declared.value.PageValue.{PageValue};
ghost use Rattle.ag_model.specs.Page.{is_before, is_trimmed_at};
ghost use Rattle.ag_page.specs.Image.{image_bytes, marks};
ghost use Rattle.ag_version.specs.Edits.{after_trim};
ghost use Rattle.ag_version.specs.Trimming.{follows, is_followed};
ghost use Rattle.ag_inplace.specs.Spelled.{Spells, IsPage};
ghost use Rattle.ag_inplace.specs.Entries.{StandsAt, IsEntry};
ghost use Rattle.ag_inplace.specs.Listing.{Lists, IsListed};
ghost use Rattle.ag_inplace.specs.Flags.{Flags};
ghost use Rattle.ag_inplace.specs.Heads.{head_of};

use crate::directory::{Directory, directory_of};
use crate::entries::{commit_in, is_del_in, key_in, lsn_in};
use crate::header::horizon_in;
use crate::keeping::keep_in;
use ag_page::Image;

/// What of a version decides whether a Trim leaves it.
#[derive(Clone, Copy)]
struct Head {
    lsn: u64,
    commit: u64,
    key: u32,
    is_del: bool,
}

/// The head of the version at a place.
fn head_in(i: &Image, at: usize) -> Head
    requires { IsEntry (image_bytes i.now) at }
    ensures { (w : Version) → StandsAt (image_bytes i.now) at w → result ≡ head_of w }
{
    Head {
        lsn: lsn_in(i, at),
        commit: commit_in(i, at),
        key: key_in(i, at),
        is_del: is_del_in(i, at),
    }
}

/// The heads of all versions of a page, in front.
fn heads_in(i: &Image, d: &Directory) -> [Head; 272]
    requires { IsListed (image_bytes i.now) d.now }
    ensures { (versions : List Version) → Lists (image_bytes i.now) d.now versions → take (length versions) result ≡ map head_of versions }
{
    let mut heads = [Head {
        lsn: 0,
        commit: 0,
        key: 0,
        is_del: false,
    }; 272];
    for k in 0..usize::from(d.count) {
        heads[k] = head_in(i, usize::from(d.places[k]));
    }
    heads
}

/// Whether a version comes before another in the order of (commit, LSN), where the uncommitted ones come last.
fn is_before(v: &Head, w: &Head) -> bool
    ensures { (x y : Version) → v.now ≡ head_of x → w.now ≡ head_of y → result ≡ is_before x y }
{
    if v.commit == 0 {
        w.commit == 0 && v.lsn < w.lsn
    } else if w.commit == 0 {
        true
    } else if v.commit == w.commit {
        v.lsn < w.lsn
    } else {
        v.commit < w.commit
    }
}

/// Whether another version of the same key that is committed at most at the horizon comes after a version.
fn follows(horizon: u64, v: &Head, w: &Head) -> bool
    ensures { (x y : Version) → v.now ≡ head_of x → w.now ≡ head_of y → result ≡ follows horizon x y }
{
    w.key == v.key && w.commit != 0 && w.commit <= horizon && is_before(v, w)
}

/// Whether one of these does.
fn is_followed(horizon: u64, heads: &[Head], v: &Head) -> bool
    ensures { (x : Version) (versions : List Version) → v.now ≡ head_of x → heads.now ≡ map head_of versions → result ≡ is_followed horizon versions x }
{
    for w in heads {
        if follows(horizon, v, w) {
            return true;
        }
    }
    false
}

/// Whether a Trim to the horizon leaves a version out.
fn is_trimmed(horizon: u64, heads: &[Head], v: &Head) -> bool
    ensures { (x : Version) (versions : List Version) → v.now ≡ head_of x → heads.now ≡ map head_of versions → result ≡ is_trimmed_at versions x horizon }
{
    v.commit != 0 && (is_followed(horizon, heads, v) || v.is_del && v.commit <= horizon)
}

/// Which versions a Trim to the horizon leaves.
fn untrimmed(horizon: u64, heads: &[Head]) -> [bool; 272]
    requires { length heads.now ≤ 272 }
    ensures { (versions : List Version) → heads.now ≡ map head_of versions → Flags (λ w. not (is_trimmed_at versions w horizon)) result versions }
{
    let mut keep = [false; 272];
    for (k, head) in heads.iter().enumerate() {
        keep[k] = !is_trimmed(horizon, heads, head);
    }
    keep
}

/// Trims a page to a horizon, an LSN: what a Trim at this LSN does.
pub fn trim_in(i: &mut Image, lsn: u64, horizon: u64)
    requires { IsPage i.old }
    ensures edit { (v : PageValue) → Spells i.old v → Spells i.new (after_trim lsn horizon v) }
    ensures marks { marks i.new ≡ marks i.old }
{
    let d = directory_of(i);
    let heads = heads_in(i, &d);
    let keep = untrimmed(horizon, &heads[..usize::from(d.count)]);
    let raised = horizon_in(i).max(horizon);
    keep_in(i, &d, &keep, lsn, raised);
}
