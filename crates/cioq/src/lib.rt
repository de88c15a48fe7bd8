// The real box over lent memory: a list of waiting cells for each input, and a store for each output.
#![tactic(auto)]

ghost use Rattle.std.specs.Prelude.{◌≡◌, ℕ, ◌+◌, ◌*◌, ◌^◌, ◌<◌, ◌≤◌, true, false, length, MatchOption, slice_index_or};
ghost use Rattle.crossbox.specs.Cells.{count_earlier};
ghost use Rattle.buffer.specs.Memory.{lent_by, enough, fresh};
ghost use Rattle.cioq.specs.State.{unset, begun, passed};
ghost use Rattle.cioq.specs.Spells.{box_of};

mod arrive;
mod depart;
mod judge;
mod kept;
mod search;
mod transfer;

use crate::search::count_earlier;
use buffer::{Loan, Memory, PLACES, PLACES_A_LINE};
use crossbox::Cell;
pub use judge::{stable_choices_are_named, taken_choices_are_stable};
pub use kept::{
    arrivals_stay_within, departures_stay_within, places_keep_their_bytes, settings_stay_within,
    transfer_stays_within,
};
use std::marker::Model;
use words::MOST_LINES;

// How many cells the box holds for an output.
pub const ROOM: u16 = 256;

// Rows: a list for each of 32 inputs, and a store for each of 32 outputs.
pub const ROWS: usize = 64;

// The room of a row: for all places.
pub const ROW_ROOM: usize = PLACES;

// The entries of rows that the box is lent.
pub const ENTRIES: usize = ROWS * ROW_ROOM;

#[derive(Drop)]
pub struct RealBox<'a> {
    memory: Memory<'a, ROWS, ROW_ROOM>,
    held: [u16; MOST_LINES],
    lines: u8,
    slots: u64,
}

// Contracts see its memory, how many cells it holds for each output, its number of lines, and how many slots it has had.
impl<'a> Model for RealBox<'a> {
    ghost use Rattle.cioq.specs.State.{State, Good, seen};

    ghost Value = { State };

    ghost view = { λ b. seen b.memory b.held b.lines b.slots };

    ghost invariant = { λ b. Good (seen b.memory b.held b.lines b.slots) };
}

impl<'a> RealBox<'a> {
    // A box over what the caller lends, with no lines yet; None where that is too little.
    pub fn new(loan: Loan<'a>) -> Option<RealBox<'a>>
        ensures { MatchOption result (enough 64 8224 (lent_by loan.entry) ≡ false) (λ b. (enough 64 8224 (lent_by loan.entry) ≡ true) × (b ≡ unset (fresh 64 8224 (lent_by loan.entry)))) }
    {
        let memory = Memory::new(loan)?;
        Some(RealBox {
            memory,
            held: [0; MOST_LINES],
            lines: 0,
            slots: 0,
        })
    }

    // How many lines there are; 0 before the first settings.
    pub fn lines(&self) -> u8
        ensures lines { result ≡ self.now.lines }
        ensures few { result ≤ 32 }
    {
        self.lines
    }

    // How many slots the box has had since its settings.
    pub fn slots(&self) -> u64
        ensures { result ≡ self.now.slots }
    {
        self.slots
    }

    // Begins anew and empty, with so many lines.
    pub fn begin(&mut self, lines: u8)
        requires few { lines ≤ 32 }
        ensures { self.new ≡ begun lines self.old }
    {
        self.memory.reset(PLACES_A_LINE * u16::from(lines));
        self.held = [0; MOST_LINES];
        self.lines = lines;
        self.slots = 0;
    }

    // Counts a slot that is over.
    pub fn pass(&mut self)
        requires { self.old.slots < 2 ^ 32 }
        ensures { self.new ≡ passed self.old }
    {
        self.slots += 1;
    }

    // How many cells wait in the list of an input.
    pub fn waiting(&self, input: u8) -> usize
        requires there { input < self.now.lines }
        ensures waiting { result ≡ length ((box_of self.now.lines self.now.mem).waiting input) }
        ensures short { result ≤ ROW_ROOM }
    {
        self.memory.len(input)
    }

    // The cell behind the first k of those.
    pub fn waiting_cell(&self, input: u8, k: usize) -> Cell
        requires there { input < self.now.lines }
        requires within { k < length ((box_of self.now.lines self.now.mem).waiting input) }
        ensures { result ≡ slice_index_or ((box_of self.now.lines self.now.mem).waiting input) k result }
    {
        self.memory.cell(input, k)
    }

    // How many cells in the store of a cell's output are earlier than the cell.
    pub fn earlier_stored(&self, cell: Cell) -> usize
        requires there { cell.output < self.now.lines }
        ensures { result ≡ count_earlier cell ((box_of self.now.lines self.now.mem).store cell.output) }
    {
        count_earlier(&self.memory, self.lines + cell.output, cell)
    }
}
