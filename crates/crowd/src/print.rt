// What is printed of a crowd: read from memory, and said of the box of the status that it shows.
ghost use Rattle.std.specs.Prelude.{◌≡◌, ℕ, ◌<◌, ◌≤◌, false, List, length, IfSome, Ok, Decides, slice_index_or};
ghost use Rattle.crossbox.specs.Cells.{count_earlier};
ghost use Rattle.words.specs.Lines.{Line, judge};
ghost use Rattle.cioq.specs.Arrivals.{arrivals_of};
ghost use Rattle.cioq.specs.Choice.{choice_of, named, judge_choice};
ghost use Rattle.crowd.specs.Crowd.{Status, lines_of, box_in, due_of};
ghost use Rattle.crowd.specs.State.{Shows};
ghost use Rattle.crowd.specs.Parts.{part_size, part, behind, part_of};

use crate::{Crowd, Due};
use crossbox::{Arrival, Cell};
use words::{DEPARTURE_BYTES, MOST_LINES, NONE};

impl<'a> Crowd<'a> {
    // How many lines there are; 0 before the first settings.
    pub fn lines(&self) -> u8
        ensures lines { result ≡ self.now.real.lines }
        ensures few { result ≤ 32 }
    {
        self.real.lines()
    }

    // How many slots there were since the settings.
    pub fn slots(&self) -> u64
        ensures { result ≡ self.now.real.slots }
    {
        self.real.slots()
    }

    // What is due.
    pub fn due(&self) -> Due
        ensures due { (st : Status) → Shows self.now st → result ≡ due_of st }
        ensures shown { (st : Status) × Shows self.now st }
    {
        self.due
    }

    // Whether the slot turned away the cell of an input.
    pub fn turned_away(&self, input: u8) -> bool
        requires { input < 32 }
        ensures { result ≡ slice_index_or self.now.away input result }
    {
        self.away[input as usize]
    }

    // How many cells wait at an input.
    pub fn waiting(&self, input: u8) -> usize
        requires { input < self.now.real.lines }
        ensures { (st : Status) → Shows self.now st → result ≡ length ((box_in st).waiting input) }
    {
        self.real.waiting(input)
    }

    // The cell behind the first k that wait at an input, and so k stand ahead of it.
    pub fn waiting_cell(&self, input: u8, k: usize) -> Cell
        requires there { input < self.now.real.lines }
        requires within { (st : Status) → Shows self.now st → k < length ((box_in st).waiting input) }
        ensures cell { (st : Status) → Shows self.now st → result ≡ slice_index_or ((box_in st).waiting input) k result }
        ensures aimed { result.output < self.now.real.lines }
    {
        self.real.waiting_cell(input, k)
    }

    // How many cells earlier than a cell stand in its store.
    pub fn earlier_stored(&self, cell: Cell) -> usize
        requires { cell.output < self.now.real.lines }
        ensures { (st : Status) → Shows self.now st → result ≡ count_earlier cell ((box_in st).store cell.output) }
    {
        self.real.earlier_stored(cell)
    }

    // The choice of the lines of a word, where one is due and it is taken.
    pub fn choice_of(&self, lines: &[u8]) -> Option<[Arrival; MOST_LINES]>
        requires { 0 < self.now.real.lines }
        ensures { IfSome result (λ choice. (st : Status) → Shows self.now st → (ls : List Line) × (judge (lines_of st) 0 false lines.now ≡ Ok ls) × (Ok tt ≡ judge_choice (lines_of st) (arrivals_of ls) (box_in st)) × (choice_of choice ≡ arrivals_of ls)) }
    {
        self.choose(lines).ok()
    }

    // The cell that a choice transfers from an input: those of all inputs are the picks.
    pub fn picked(&self, input: u8, arrival: Arrival) -> Option<Cell>
        requires { input < self.now.real.lines }
        ensures { (st : Status) → Shows self.now st → result ≡ named arrival ((box_in st).waiting input) }
    {
        self.real.named_at(input, arrival)
    }
}

// One output's part of an answer, and the bytes behind it. No `Taken` of `frames`: a crowd knows nothing of frames.
#[derive(Clone, Copy)]
pub struct Part<'a> {
    pub bytes: &'a [u8],
    pub rest: &'a [u8],
}

// How many bytes one output's part takes at the front of bytes.
fn part_size(bytes: &[u8]) -> usize
    ensures { result ≡ part_size bytes.now }
{
    let [first, ..] = bytes else {
        return 0;
    };
    if *first == NONE {
        return 1;
    }
    bytes.len().min(DEPARTURE_BYTES)
}

// The part at the front of bytes.
pub fn next_part(bytes: &[u8]) -> Part<'_>
    ensures part { result.bytes.now ≡ part bytes.now }
    ensures rest { result.rest.now ≡ behind bytes.now }
{
    let (bytes, rest) = bytes.split_at(part_size(bytes));
    Part { bytes, rest }
}

// By output, whether two answers of n lines tell of another departure; both are given behind their first byte.
pub fn differs(real: &[u8], ideal: &[u8], n: u8) -> [bool; MOST_LINES]
    requires { n ≤ 32 }
    ensures where_they_differ { (o : ℕ) → o < n → slice_index_or result o false ≡ false → part_of o real.now ≡ part_of o ideal.now }
    ensures alike { real.now ≡ ideal.now → (o : ℕ) → o < n → slice_index_or result o false ≡ false }
    ensures where_they_agree { (o : ℕ) → o < n → part_of o real.now ≡ part_of o ideal.now → slice_index_or result o false ≡ false }
{
    let mut found = [false; MOST_LINES];
    let mut a = real;
    let mut b = ideal;
    // By number: of an array that is changed through `iter_mut().take(n)` the checker knows no value (tried).
    for output in 0..n {
        let one = next_part(a);
        let other = next_part(b);
        found[output as usize] = one.bytes != other.bytes;
        a = one.rest;
        b = other.rest;
    }
    found
}
