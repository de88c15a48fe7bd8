// Places for cells in lent memory: their heads, and, in the specifications, what rows of places hold.
#![tactic(auto)]

ghost use Rattle.std.specs.Prelude.{◌≡◌};
ghost use Rattle.places.specs.Head.{head_of, cell_of};

use crossbox::Cell;

// The head of a place: whose cell stands there, and in which row. All zeros is the head of a free place.
#[repr(C)]
#[derive(Clone, Copy)]
pub struct Head {
    pub slot: u32,
    pub input: u8,
    pub output: u8,
    // one more than the number of the row in which the place stands; 0 for a free place
    pub owner: u16,
}

impl Head {
    pub const VACANT: Head = Head {
        slot: 0,
        input: 0,
        output: 0,
        owner: 0,
    };

    // The head of a cell that stands in a row. No `From`: it takes the row too.
    pub fn of(cell: Cell, owner: u16) -> Head
        ensures { result ≡ head_of cell owner }
    {
        Head {
            slot: cell.slot,
            input: cell.input,
            output: cell.output,
            owner,
        }
    }

    // The cell that a head tells of. No `From`: it gives up the row.
    pub fn cell(self) -> Cell
        ensures { result ≡ cell_of self }
    {
        Cell {
            slot: self.slot,
            input: self.input,
            output: self.output,
        }
    }
}
