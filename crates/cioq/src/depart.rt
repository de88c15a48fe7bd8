// Departures: from each store that is not empty the first cell leaves.
ghost use Rattle.std.specs.Prelude.{◌≡◌, ◌+◌, ◌*◌, ◌<◌, ◌≤◌};
ghost use Rattle.words.specs.Writing.{appended};
ghost use Rattle.words.specs.Answer.{leaving};
ghost use Rattle.cioq.specs.State.{Counted};
ghost use Rattle.cioq.specs.Departures.{depart_one, departure_of, depart_all, departing_bytes};

use crate::RealBox;
use words::{ANSWER_BYTES, Answer, DEPARTURE_BYTES};

impl<'a> RealBox<'a> {
    // Writes what leaves by an output, the first of its store or the byte for none, and lets it go.
    fn depart_one(&mut self, output: u8, answer: &mut Answer)
        requires there { output < self.old.lines }
        requires room { answer.old.len + DEPARTURE_BYTES ≤ ANSWER_BYTES }
        requires counted { Counted self.old }
        ensures after { self.new ≡ depart_one output self.old }
        ensures answer { answer.new ≡ appended (leaving (departure_of output self.old)) answer.old }
        ensures short { answer.new.len ≤ answer.old.len + DEPARTURE_BYTES }
    {
        if self.memory.leave(self.lines + output, answer) {
            self.held[output as usize] -= 1;
        }
    }

    // Writes what leaves by each output, and lets it go.
    pub fn depart(&mut self, answer: &mut Answer)
        requires counted { Counted self.old }
        requires room { answer.old.len + DEPARTURE_BYTES * self.old.lines ≤ ANSWER_BYTES }
        ensures after { self.new ≡ depart_all self.old.lines self.old }
        ensures answer { answer.new ≡ appended (departing_bytes self.old.lines self.old) answer.old }
        ensures short { answer.new.len ≤ answer.old.len + DEPARTURE_BYTES * self.old.lines }
    {
        for output in 0..self.lines {
            self.depart_one(output, answer);
        }
    }
}
