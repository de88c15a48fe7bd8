// Transfers: the cells that a choice names go from their lists to their places in the stores.
ghost use Rattle.std.specs.Prelude.{◌≡◌, ◌<◌, true, length};
ghost use Rattle.crossbox.specs.Promise.{Fits};
ghost use Rattle.cioq.specs.Spells.{cells, box_of};
ghost use Rattle.cioq.specs.Choice.{choice_of, all_wait};
ghost use Rattle.cioq.specs.Transfers.{position, Sends, sent, transfer_one, transfer_all};

use crate::RealBox;
use crate::search::{first_for, place_for};
use crossbox::Arrival;
use words::MOST_LINES;

impl<'a> RealBox<'a> {
    // Carries the first cell for an output in the list of an input to its place in the store.
    fn send(&mut self, input: u8, output: u8)
        requires there { (input < self.old.lines) × (output < self.old.lines) }
        requires waits { position output (cells self.old.mem input) < length (cells self.old.mem input) }
        ensures { self.new ≡ sent input output self.old }
    {
        let k = first_for(&self.memory, input, output).unwrap();
        let cell = self.memory.cell(input, k);
        let store = self.lines + output;
        let j = place_for(&self.memory, store, cell);
        self.memory.carry(input, k, store, j);
    }

    // Carries the cell that is named at an input, if any.
    fn transfer_one(&mut self, input: u8, arrival: Arrival)
        requires there { input < self.old.lines }
        requires sends { Sends self.old.lines arrival (cells self.old.mem input) }
        ensures { self.new ≡ transfer_one input arrival self.old }
    {
        let Arrival::For(output) = arrival else {
            return;
        };
        self.send(input, output);
    }

    // Carries each cell that a choice names, all of which wait, to its place in its store.
    pub fn transfer(&mut self, choice: &[Arrival; MOST_LINES])
        requires fits { Fits self.old.lines (choice_of choice.now) }
        requires waits { all_wait self.old.lines (choice_of choice.now) (box_of self.old.lines self.old.mem) ≡ true }
        ensures { self.new ≡ transfer_all self.old.lines (choice_of choice.now) self.old }
    {
        for (input, &arrival) in (0..self.lines).zip(choice) {
            self.transfer_one(input, arrival);
        }
    }
}
