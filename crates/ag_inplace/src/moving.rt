//! Bytes of a page that are moved to its front, and bytes that are cleared.
ghost use Rattle.std.specs.Prelude.{◌≡◌, ◌+◌, ◌-◌, ◌≤◌, ◌++◌, length, take, drop, replicate};
ghost use Rattle.ag_page.specs.Image.{image_bytes, marks};

use crate::parts::{read_part, write_part};
use ag_page::Image;

/// How many bytes a version takes at most.
const MOST: usize = 94;

/// Copies the bytes of a version from one place to another. Nothing is written where they stand there already.
pub(crate) fn move_part(i: &mut Image, from: usize, size: usize, to: usize)
    requires whole { length (image_bytes i.old) ≡ 8176 }
    requires source { from + size ≤ 8176 }
    requires room { to + size ≤ 8176 }
    requires short { size ≤ 94 }
    ensures bytes { image_bytes i.new ≡ take to (image_bytes i.old) ++ (take size (drop from (image_bytes i.old)) ++ drop (to + size) (image_bytes i.old)) }
    ensures marks { marks i.new ≡ marks i.old }
{
    if from == to {
        return;
    }
    let mut bytes = [0; MOST];
    read_part(i, from, &mut bytes[..size]);
    write_part(i, to, &bytes[..size]);
}

/// Writes zeros from one place up to another.
pub(crate) fn clear(i: &mut Image, from: usize, to: usize)
    requires whole { length (image_bytes i.old) ≡ 8176 }
    requires order { from ≤ to }
    requires room { to ≤ 8176 }
    ensures bytes { image_bytes i.new ≡ take from (image_bytes i.old) ++ (replicate (to - from) 0 ++ drop to (image_bytes i.old)) }
    ensures marks { marks i.new ≡ marks i.old }
{
    let zeros = [0; 256];
    let mut at = from;
    while at < to {
        let count = (to - at).min(256);
        write_part(i, at, &zeros[..count]);
        at += count;
    }
}
