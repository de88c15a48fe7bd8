// Searches in rows: where cells stand, and where they belong.
ghost use Rattle.std.specs.Prelude.{◌≡◌, ◌<◌};
ghost use Rattle.crossbox.specs.Cells.{count_earlier};
ghost use Rattle.buffer.specs.Memory.{view, Sound};
ghost use Rattle.cioq.specs.Spells.{cells};
ghost use Rattle.cioq.specs.Transfers.{place_of_first, place_for};

use crate::{ROW_ROOM, ROWS};
use buffer::Memory;
use crossbox::{Cell, is_earlier};

// Behind how many cells of a row its first for an output stands, if it has one.
pub fn first_for(memory: &Memory<'_, ROWS, ROW_ROOM>, row: u8, output: u8) -> Option<usize>
    requires sound { Sound (view memory.now) }
    requires within { row < 64 }
    ensures { result ≡ place_of_first output (cells (view memory.now) row) }
{
    (0..memory.len(row)).position(|k| memory.cell(row, k).output == output)
}

// Behind how many cells of a row a cell belongs, sought from the row's end.
pub fn place_for(memory: &Memory<'_, ROWS, ROW_ROOM>, row: u8, cell: Cell) -> usize
    requires sound { Sound (view memory.now) }
    requires within { row < 64 }
    ensures { result ≡ place_for cell (cells (view memory.now) row) }
{
    let len = memory.len(row);
    len - (0..len)
        .rev()
        .take_while(|&k| is_earlier(cell, memory.cell(row, k)))
        .count()
}

// How many cells of a row are earlier than a cell.
pub fn count_earlier(memory: &Memory<'_, ROWS, ROW_ROOM>, row: u8, cell: Cell) -> usize
    requires sound { Sound (view memory.now) }
    requires within { row < 64 }
    ensures { result ≡ count_earlier cell (cells (view memory.now) row) }
{
    (0..memory.len(row))
        .filter(|&k| is_earlier(memory.cell(row, k), cell))
        .count()
}
