// The ideal box over lent memory: a queue for each output.
#![tactic(auto)]

ghost use Rattle.std.specs.Prelude.{◌≡◌, ℕ, ◌+◌, ◌*◌, ◌^◌, ◌<◌, ◌≤◌, true, false, List, [], length, MatchOption, slice_index_or};
ghost use Rattle.buffer.specs.Memory.{lent_by, enough, fresh};
ghost use Rattle.words.specs.Writing.{appended};
ghost use Rattle.ideal.specs.Kept.{SlotStaysWithin, SettingsStayWithin, PlacesKept};
ghost use Rattle.ideal.specs.State.{unset, begun};
ghost use Rattle.ideal.specs.Steps.{Brings, Reads, lines_of, admit_one, admitted, away, turned_away, departing, departed, departure_of, departures, served, leavers, rejects};
ghost use Rattle.words.specs.Answer.{Written, leaving, leaving_all};

pub use buffer::ROOM;
use buffer::{Loan, Memory, PLACES_A_LINE};
use crossbox::{Arrival, Cell};
use std::marker::Model;
use words::{ANSWER, ANSWER_BYTES, Answer, BODY, DEPARTURE_BYTES, MOST_LINES, body_of, read_entry};

// The entries of rows that the box is lent: 32 queues.
pub const ENTRIES: usize = MOST_LINES * ROOM;

#[derive(Drop)]
pub struct IdealBox<'a> {
    memory: Memory<'a, MOST_LINES, ROOM>,
    lines: u8,
    slots: u64,
}

// Contracts see its memory, its number of lines, and how many slots it has had.
impl<'a> Model for IdealBox<'a> {
    ghost use Rattle.ideal.specs.State.{State, Good, seen};

    ghost Value = { State };

    ghost view = { λ b. seen b.memory b.lines b.slots };

    ghost invariant = { λ b. Good (seen b.memory b.lines b.slots) };
}

impl<'a> IdealBox<'a> {
    // A box over what the caller lends, with no lines yet; None where that is too little.
    pub fn new(loan: Loan<'a>) -> Option<IdealBox<'a>>
        ensures { MatchOption result (enough 32 256 (lent_by loan.entry) ≡ false) (λ b. (enough 32 256 (lent_by loan.entry) ≡ true) × (b ≡ unset (fresh 32 256 (lent_by loan.entry)))) }
    {
        let memory = Memory::new(loan)?;
        Some(IdealBox {
            memory,
            lines: 0,
            slots: 0,
        })
    }

    // How many lines there are; 0 before the first settings.
    pub fn lines(&self) -> u8
        ensures { result ≡ self.now.lines }
    {
        self.lines
    }

    // How many slots the box has had since its settings.
    pub fn slots(&self) -> u64
        ensures { result ≡ self.now.slots }
    {
        self.slots
    }

    // Begins anew and empty, with so many lines.
    pub fn begin(&mut self, lines: u8)
        requires { lines ≤ 32 }
        ensures { self.new ≡ begun lines self.old }
    {
        self.memory.reset(PLACES_A_LINE * u16::from(lines));
        self.lines = lines;
        self.slots = 0;
    }

    // Puts what arrives by an input to the end of its queue; true where the queue is full and the cell is turned away.
    fn admit(&mut self, input: u8, arrival: Arrival, body: &[u8]) -> bool
        requires early { self.old.slots < 2 ^ 32 }
        requires brings { Brings self.old.lines arrival body.now }
        ensures after { self.new ≡ admit_one input arrival body.now self.old }
        ensures away { result ≡ turned_away self.old.mem arrival }
    {
        let Arrival::For(output) = arrival else {
            return false;
        };
        let len = self.memory.len(output);
        if len >= ROOM {
            return true;
        }
        let cell = Cell {
            slot: self.slots as u32,
            input,
            output,
        };
        self.memory.put(output, len, cell, body_of(body));
        false
    }

    // Admits what the lines of a slot bring; gives for each input whether its cell was turned away.
    fn admit_all(&mut self, bytes: &[u8]) -> [bool; MOST_LINES]
        requires early { self.old.slots < 2 ^ 32 }
        requires read { Reads self.old.lines bytes.now }
        ensures after { self.new ≡ admitted self.old.lines (lines_of self.old.lines bytes.now) self.old }
        ensures away { (i : ℕ) → i < self.old.lines → slice_index_or result i false ≡ away self.old.slots (lines_of self.old.lines bytes.now) self.old.mem i }
    {
        let mut turned_away = [false; MOST_LINES];
        let mut rest = bytes;
        // By number, and not by `iter_mut`: the array is given back from within the loop too.
        for input in 0..self.lines {
            let Some(entry) = read_entry(rest, BODY) else {
                return turned_away;
            };
            turned_away[input as usize] = self.admit(input, entry.arrival, entry.body);
            rest = entry.rest;
        }
        turned_away
    }

    // Writes what leaves by an output, and lets it go.
    fn depart(&mut self, output: u8, answer: &mut Answer)
        requires there { output < self.old.lines }
        requires room { answer.old.len + DEPARTURE_BYTES ≤ ANSWER_BYTES }
        ensures after { self.new ≡ departing output self.old }
        ensures answer { answer.new ≡ appended (leaving (departure_of output self.old.mem)) answer.old }
        ensures short { answer.new.len ≤ answer.old.len + DEPARTURE_BYTES }
    {
        self.memory.leave(output, answer);
    }

    // Writes what leaves by each output, and lets it go.
    fn depart_all(&mut self, answer: &mut Answer)
        requires room { answer.old.len + DEPARTURE_BYTES * self.old.lines ≤ ANSWER_BYTES }
        ensures after { self.new ≡ departed self.old.lines self.old }
        ensures answer { answer.new ≡ appended (leaving_all (departures self.old.lines self.old.mem)) answer.old }
        ensures short { answer.new.len ≤ answer.old.len + DEPARTURE_BYTES * self.old.lines }
    {
        for output in 0..self.lines {
            self.depart(output, answer);
        }
    }

    // Serves a slot whose lines have been judged good, and writes its answer.
    pub fn slot(&mut self, lines: &[u8], answer: &mut Answer)
        requires early { self.old.slots < 2 ^ 32 }
        requires read { Reads self.old.lines lines.now }
        ensures after { self.new ≡ served (lines_of self.old.lines lines.now) self.old }
        ensures answer { Written answer.old.bytes answer.new.bytes answer.new.len (leavers (lines_of self.old.lines lines.now) self.old) (rejects (lines_of self.old.lines lines.now) self.old) }
    {
        let inputs = self.lines as usize;
        let turned_away = self.admit_all(lines);
        answer.begin(ANSWER);
        self.depart_all(answer);
        self.slots += 1;
        answer.push_flags(&turned_away[..inputs]);
    }
}

// A slot leaves what lies beyond the settings as it was, and does not depend on it.
pub fn slot_stays_within_the_settings()
    ensures { SlotStaysWithin }
{}

// So do new settings.
pub fn settings_stay_within()
    ensures { SettingsStayWithin }
{}

// A slot changes a place's bytes only where a cell is put there.
pub fn places_keep_their_bytes()
    ensures { PlacesKept }
{}
