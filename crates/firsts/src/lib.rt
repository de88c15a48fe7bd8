// The table of the first waiting cell of each pair of an input and an output, kept up to date as lists change.
#![tactic(auto)]

ghost use Rattle.std.specs.Prelude.{◌≡◌, ◌+◌, ◌*◌, ◌<◌, true, ◌&&◌, map, slice_index};
ghost use Rattle.bits.specs.Bits.{is_set};
ghost use Rattle.firsts.specs.Firsts.{none, later, sooner, stands, noted, after_insert, after_remove};

use bits::{has, with, without};
use crossbox::Cell;
use std::array;

// How many inputs and how many outputs the table has.
pub const LINES: usize = 32;

// The first waiting cell of each pair of an input i and an output o: `waiting` has bit i of its number o set where there is one,
// `slots` its slot at o * 32 + i, and `places` how many stand ahead of it in the list of its input at i * 32 + o. What stands at
// a pair without a cell means nothing.
// `matching` has such a table that is made anew by going through the lists; this one takes its place when a box stands on it.
#[repr(C)]
#[derive(Clone, Copy)]
pub struct Firsts {
    pub waiting: [u32; 32],
    pub slots: [u32; 1024],
    pub places: [u16; 1024],
}

// A first cell: how many stand ahead of it in its list, and its slot.
#[derive(Clone, Copy)]
pub struct First {
    pub place: u16,
    pub slot: u32,
}

// Each place of an input's list is one more, from the k-th on.
fn put_back(places: &mut [u16], k: u16)
    ensures { places.new ≡ map (later k) places.old }
{
    for place in places.iter_mut() {
        *place = place.saturating_add(u16::from(*place >= k));
    }
}

// Each place of an input's list is one less, above the k-th. One function with `put_back` would take what is done and the bound.
fn bring_forward(places: &mut [u16], k: u16)
    ensures { places.new ≡ map (sooner k) places.old }
{
    for place in places.iter_mut() {
        *place -= u16::from(*place > k);
    }
}

impl Firsts {
    // A table of empty lists.
    pub fn new() -> Firsts
        ensures { result ≡ none }
    {
        Firsts {
            waiting: [0; 32],
            slots: array::repeat(0),
            places: array::repeat(0),
        }
    }

    // Makes it a table of empty lists again.
    pub fn clear(&mut self)
        ensures { self.new ≡ none }
    {
        *self = Firsts::new();
    }

    // How many stand ahead of the first cell of a pair, which has one.
    pub fn place(&self, input: u8, output: u8) -> u16
        requires { (input < 32) × (output < 32) }
        ensures { result ≡ slice_index self.now.places (input * 32 + output) }
    {
        self.places[input as usize * LINES + output as usize]
    }

    // Whether a pair has a first cell that stands before the k-th of its list.
    fn stands_before(&self, input: u8, output: u8, k: u16) -> bool
        requires { (input < 32) × (output < 32) }
        ensures { result ≡ stands input output k self.now }
    {
        has(self.waiting[output as usize], input) && self.place(input, output) < k
    }

    // Notes the first cell of a pair.
    fn note(&mut self, input: u8, output: u8, first: First)
        requires { (input < 32) × (output < 32) }
        ensures { self.new ≡ noted input output first self.old }
    {
        let (row, column) = (input as usize, output as usize);
        self.waiting[column] = with(self.waiting[column], input);
        self.slots[column * LINES + row] = first.slot;
        self.places[row * LINES + column] = first.place;
    }

    // A cell was put behind the first k of the list of its input.
    pub fn insert(&mut self, input: u8, k: u16, cell: Cell)
        requires { (input < 32) × (cell.output < 32) }
        ensures { self.new ≡ after_insert input k cell self.old }
    {
        let stands = self.stands_before(input, cell.output, k);
        let start = input as usize * LINES;
        put_back(&mut self.places[start..start + LINES], k);
        if stands {
            return;
        }
        let first = First {
            place: k,
            slot: cell.slot,
        };
        self.note(input, cell.output, first);
    }

    // The first cell of a pair, behind k others of its list, was taken out; `next` is the first that is left of the pair.
    pub fn remove(&mut self, input: u8, output: u8, k: u16, next: Option<First>)
        requires there { (input < 32) × (output < 32) }
        requires had { is_set (slice_index self.old.waiting output) input ≡ true }
        ensures { self.new ≡ after_remove input output k next self.old }
    {
        let start = input as usize * LINES;
        bring_forward(&mut self.places[start..start + LINES], k);
        match next {
            Some(first) => self.note(input, output, first),
            None => {
                self.waiting[output as usize] = without(self.waiting[output as usize], input);
            }
        }
    }
}
