// Arrivals: each cell is put into the list of its input, or turned away.
ghost use Rattle.std.specs.Prelude.{◌≡◌, ℕ, ◌^◌, ◌<◌, false, ◌&&◌, Ok, nat_lt, slice_index_or};
ghost use Rattle.words.specs.Lines.{judge, verdict};
ghost use Rattle.cioq.specs.Arrivals.{Brings, admit_one, turned_away, admit_all, away, slot_lines};

use crate::{ROOM, RealBox};
use crossbox::{Arrival, Cell};
use words::{BODY, MOST_LINES, body_of, read_entry};

impl<'a> RealBox<'a> {
    // Puts what arrives by an input into its list; true where 256 cells are held for its output, and the cell is turned away.
    fn admit(&mut self, input: u8, arrival: Arrival, body: &[u8]) -> bool
        requires early { self.old.slots < 2 ^ 32 }
        requires there { input < self.old.lines }
        requires brings { Brings self.old.lines arrival body.now }
        ensures after { self.new ≡ admit_one input arrival body.now self.old }
        ensures away { result ≡ turned_away self.old arrival }
    {
        let Arrival::For(output) = arrival else {
            return false;
        };
        let count = self.held[output as usize];
        if count >= ROOM {
            return true;
        }
        let stored = self.memory.len(self.lines + output);
        let k = stored.min(self.memory.len(input));
        let cell = Cell {
            slot: self.slots as u32,
            input,
            output,
        };
        self.memory.put(input, k, cell, body_of(body));
        self.held[output as usize] = count + 1;
        false
    }

    // Admits the lines of a slot, whose bytes are known to be good; by input, whether its cell was turned away.
    pub fn arrive(&mut self, bytes: &[u8]) -> [bool; MOST_LINES]
        requires early { self.old.slots < 2 ^ 32 }
        requires read { Ok tt ≡ verdict (judge self.old.lines 64 false bytes.now) }
        ensures after { self.new ≡ admit_all (slot_lines self.old.lines bytes.now) self.old.lines self.old }
        ensures away { (i : ℕ) → i < 32 → slice_index_or result i false ≡ (nat_lt i self.old.lines && away (slot_lines self.old.lines bytes.now) self.old i) }
    {
        let mut away = [false; MOST_LINES];
        let mut rest = bytes;
        let lines = self.lines;
        // By number and not over `away` itself, which is given back from within the loop.
        for input in 0..lines {
            let Some(entry) = read_entry(rest, BODY) else {
                return away;
            };
            away[input as usize] = self.admit(input, entry.arrival, entry.body);
            rest = entry.rest;
        }
        away
    }
}
