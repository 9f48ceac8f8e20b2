//! The mark of the next write over an image.
ghost use Rattle.std.specs.Prelude.{◌≡◌, ◌∷◌, ◌++◌, [], length, take};
ghost use Rattle.std.specs.List.{list_any, AllByRecursion};
ghost use Rattle.ag_model.specs.declared.answer.Cell.TheVariants.{Mark};
ghost use Rattle.ag_model.specs.Cells.{same_mark, is_sound, is_lost, has_lost, next_mark, free_mark, mark_after};
ghost use Rattle.ag_page.specs.Home.{with_mark};

use ag_model::answer::Cell;
use ag_page::Image;

/// Whether both cells have the same mark.
fn same_mark(a: Cell, b: Cell) -> bool
    ensures { result ≡ same_mark a b }
{
    match (a, b) {
        (Cell::Mark(m), Cell::Mark(n)) => m == n,
        _ => false,
    }
}

/// Whether a sector of the image is lost.
pub(crate) fn has_lost(cells: &[Cell; 16]) -> bool
    ensures { result ≡ has_lost cells.now }
{
    cells.iter().any(|c| matches!(c, Cell::Lost))
}

/// Whether no sector is lost and all marks are equal.
pub(crate) fn is_sound(cells: &[Cell; 16]) -> bool
    ensures { result ≡ is_sound cells.now }
{
    let first = cells[0];
    cells.iter().all(|c| same_mark(first, *c))
}

/// Whether a sector has this mark.
fn has_mark(cells: &[Cell; 16], mark: u8) -> bool
    ensures { result ≡ list_any (same_mark (Mark mark)) cells.now }
{
    cells.iter().any(|c| same_mark(Cell::Mark(mark), *c))
}

/// The mark after one.
fn next_mark(mark: u8) -> u8
    ensures { result ≡ next_mark mark }
{
    if mark == 255 { 1 } else { mark + 1 }
}

/// The least mark from 1 to 17 that no sector has.
fn free_mark(cells: &[Cell; 16]) -> u8
    ensures { result ≡ free_mark cells.now }
{
    for mark in 1..18 {
        if !has_mark(cells, mark) {
            return mark;
        }
    }
    0
}

/// The mark of the next write over the image that has these cells.
#[tactic(auto, unfolding(ag_model::specs::Cells::mark_after))]
pub(crate) fn mark_after(cells: &[Cell; 16]) -> u8
    ensures { result ≡ mark_after cells.now }
{
    if !is_sound(cells) {
        return free_mark(cells);
    }
    match cells[0] {
        Cell::Mark(mark) => next_mark(mark),
        Cell::Lost => 1,
    }
}

/// A sector with another mark.
fn sector_with_mark(sector: &[u8; 512], mark: u8) -> [u8; 512]
    ensures marked { result ≡ take 511 sector.now ++ mark ∷ [] }
    ensures long { length sector.now ≡ 512 }
{
    let mut marked = [mark; 512];
    marked[..511].copy_from_slice(&sector[..511]);
    marked
}

/// The image with another mark.
pub(crate) fn with_mark(image: &Image, mark: u8) -> Image
    ensures marked { result ≡ with_mark mark image.now }
    ensures sectors { length image.now ≡ 16 }
    ensures bytes { AllByRecursion (λ s. length s ≡ 512) image.now }
{
    let mut marked = *image;
    for (place, sector) in image.iter().enumerate() {
        marked[place] = sector_with_mark(sector, mark);
    }
    marked
}
