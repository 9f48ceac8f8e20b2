//! The room that the pairs of a `set` take on their pages.
ghost use Rattle.std.specs.Prelude.{◌≡◌, ◌<◌, ◌≤◌, length};
ghost use Rattle.ag_model.specs.Rows.{page_of};
ghost use Rattle.ag_rules.specs.SetEvent.{pair_size, taken_on};

use ag_model::event::Pair;
use ag_model::page::page_of;

/// The bytes of a pair on its page.
pub(crate) fn pair_size(pair: &Pair) -> u32
    ensures size { result ≡ pair_size pair.now }
    ensures bound { result < 286 }
{
    30 + u32::from(pair.value.len)
}

/// The bytes that the earlier pairs take on the page of a key.
pub(crate) fn taken_on(pages: u16, key: u32, earlier: &[Pair]) -> u32
    requires some { 0 < pages }
    requires most { pages ≤ 2048 }
    requires few { length earlier.now ≤ 8 }
    ensures { result ≡ taken_on pages (page_of pages key) earlier.now }
{
    let page = page_of(pages, key);
    let mut taken = 0;
    for pair in earlier {
        if page_of(pages, pair.key) == page {
            taken += pair_size(pair);
        }
    }
    taken
}
