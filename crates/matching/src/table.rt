// The table of first cells, made by going through the lists.
ghost use Rattle.std.specs.Prelude.{◌≡◌, ℕ, ◌<◌, List, [], length};
ghost use Rattle.crossbox.specs.declared.Cell.{Cell};
ghost use Rattle.matching.specs.Making.{TableOf, grown};

use crate::{Firsts, LINES};
use bits::{has, with};
use crossbox::Cell;
use std::array;

impl Firsts {
    // A table of empty lists.
    pub fn new() -> Firsts
        ensures { TableOf result (λ i. []) }
    {
        Firsts {
            waiting: [0; 32],
            slots: array::repeat(0),
            places: array::repeat(0),
        }
    }

    // Makes it a table of empty lists again.
    pub fn clear(&mut self)
        ensures { TableOf self.new (λ i. []) }
    {
        self.waiting = [0; 32];
    }

    // Notes the next cell of an input's list, which stands behind so many.
    pub fn note(&mut self, input: u8, place: u16, cell: Cell)
        requires { (input < 32) × (cell.output < 32) }
        ensures { (ls : ℕ → List Cell) → TableOf self.old ls → place ≡ length (ls input) → TableOf self.new (grown input cell ls) }
    {
        let output = cell.output as usize;
        let inputs = self.waiting[output];
        if has(inputs, input) {
            return;
        }
        self.waiting[output] = with(inputs, input);
        self.slots[output * LINES + input as usize] = cell.slot;
        self.places[input as usize * LINES + output] = place;
    }
}
