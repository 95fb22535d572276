//! The cells of a heap by their addresses. All here stands on rows that were found whole.
ghost use Rattle.std.specs.Prelude.{◌≡◌, ◌≤◌, MatchOption};
ghost use Rattle.page_space.specs.Extents.{words_count, CellsEndAt};
ghost use Rattle.heap_model.specs.Images.{image_heap};
ghost use Rattle.heap_model.specs.Heaps.{HasCell, words_of_cell};
ghost use Rattle.heap_model.specs.Wholeness.{HasRows};
ghost use Rattle.heap_model.specs.RegionRows.{StandsBetween};
ghost use Rattle.image_walk.specs.Words.{HasWords};
ghost use Rattle.image_walk.specs.Finding.{HasNoCellFrom, IsFirstCell, HasNoCellAt};
ghost use Rattle.image_walk.specs.NextCell.{IsBoundary};

use crate::next_cell::next_from;
use cell_layout::Cell;
use heap_model::HeapImage;

/// The cell of a heap at an address. It walks from the first address of its page, of eden or of its
/// segment on, so it takes as long as there are cells before it there.
pub fn find_cell(image: &HeapImage, address: u32) -> Option<Cell>
    requires sized { HasWords (image_heap image.now) }
    requires rows { HasRows (image_heap image.now) }
    ensures { let heap = image_heap image.now in MatchOption result (HasNoCellAt heap address)
        (λ cell. (cell.at ≡ address) × HasCell heap cell (words_of_cell heap cell)) }
{
    let Some(end) = image.regions.cells_end(address) else {
        return None;
    };
    match first_from(image, start_before(image, address, end), address) {
        Some(cell) => { if cell.at == address { Some(cell) } else { None } }
        None => None,
    }
}

/// The first address of the page, of eden or of the segment that an address is in and that ends at
/// another.
fn start_before(image: &HeapImage, address: u32, end: u32) -> u32
    requires within { CellsEndAt image.now.regions address end }
    requires inside { end ≤ words_count image.now.regions }
    ensures stands { StandsBetween image.now.regions result end }
    ensures before { result ≤ address }
{
    image.regions.start(image.regions.region(address))
}

/// The first cell of a heap that stands at an address or behind it, come to from one before it that
/// no cell reaches over.
fn first_from(image: &HeapImage, from: u32, least: u32) -> Option<Cell>
    requires sized { HasWords (image_heap image.now) }
    requires rows { HasRows (image_heap image.now) }
    requires boundary { IsBoundary (image_heap image.now) from }
    requires before { from ≤ least }
    ensures { MatchOption result (HasNoCellFrom (image_heap image.now) least)
        (λ cell. IsFirstCell (image_heap image.now) least cell) }
{
    let mut at = from;
    while let Some(cell) = next_from(image, at) {
        if cell.at >= least {
            return Some(cell);
        }
        at = cell.at + cell.size;
    }
    None
}
