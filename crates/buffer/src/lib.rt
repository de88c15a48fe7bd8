// Lent memory: places for cells, rows of places, and the row of free places.
#![tactic(auto)]

pub use crossbox::BODY;
pub use places::Head;

mod free;
mod memory;
mod rows;

pub use free::Free;
pub use memory::Memory;

// How many cells a box holds for an output.
pub const ROOM: usize = 256;

// Places for each line: as many as are held for an output, and one more.
pub const PLACES_A_LINE: u16 = 257;

// How many places are lent: 256 for each of 32 outputs, and one more for each.
pub const PLACES: usize = 8224;

// What a caller lends to a box: by place, the heads of cells and their bytes; rows of places; and the row of free places.
#[derive(Drop)]
pub struct Loan<'a> {
    pub heads: &'a mut [Head],
    pub cells: &'a mut [[u8; BODY]],
    pub rows: &'a mut [u16],
    pub spare: &'a mut [u16],
}
