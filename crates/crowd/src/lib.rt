// A real box whose choices come from outside: each is tested before its cells are transferred.
#![tactic(auto)]

ghost use Rattle.std.specs.Prelude.{◌≡◌, ℕ, ◌≤◌, Bool, true, false, List, ◌∷◌, take, Ok, MatchOption, nat_le};
ghost use Rattle.crossbox.specs.Box.{Box};
ghost use Rattle.buffer.specs.Memory.{lent_by, enough};
ghost use Rattle.words.specs.Lines.{Line, settings, judge, verdict};
ghost use Rattle.cioq.specs.Arrivals.{arrivals_of};
ghost use Rattle.cioq.specs.Choice.{choice_of};
ghost use Rattle.switch.specs.Respond.{SlotIn, slot_answer};
ghost use Rattle.crowd.specs.declared.Due.TheVariants as due;
ghost use Rattle.crowd.specs.Crowd.{Status, turn_of, decide, crowd_respond};
ghost use Rattle.crowd.specs.Crowd.Status.{Unset, FirstDue};
ghost use Rattle.crowd.specs.Crowd.Verdict.{Choose};
ghost use Rattle.words.specs.Writing.{Draft};
ghost use Rattle.crowd.specs.State.{Shows, Told, Settled, Slotted, choice_lines, Choosing, Chosen, First, Second, Refused};
ghost use Rattle.crowd.specs.Promise.{Answers, Keeps, TurnDone, SameAnswer, SameAsIdeal};

mod print;

use buffer::Loan;
use cioq::RealBox;
use crossbox::Arrival;
pub use print::{Part, differs, next_part};
use std::marker::Model;
use words::{
    ANSWER, Answer, BODY, Fault, Kind, MOST_LINES, SLOT_LIMIT, judge_lines, read_entry,
    read_settings,
};

// A choice names cells, and has no bytes of theirs.
const NO_BODY: usize = 0;

// What is due.
#[derive(Clone, Copy)]
pub enum Due {
    Unset,
    Slot,
    First,
    Second,
}

// What a word is to be taken for; a refusal is one of them, as each is an arm where words are taken.
#[derive(Clone, Copy)]
pub enum Turn {
    Settings,
    Slot,
    First,
    Second,
    Refusal,
}

#[derive(Drop)]
pub struct Crowd<'a> {
    real: RealBox<'a>,
    due: Due,
    away: [bool; MOST_LINES],
}

// Contracts see its real box, what is due, and what the slot turned away. It always shows some status.
impl<'a> Model for Crowd<'a> {
    ghost use Rattle.crowd.specs.Crowd.{Status};
    ghost use Rattle.crowd.specs.State.{State, seen, Shows};

    ghost Value = { State };

    ghost view = { λ c. seen c.real c.due c.away };

    ghost invariant = { λ c. (st : Status) × Shows (seen c.real c.due c.away) st };
}

// What a word of a kind is to be taken for.
fn turn_of(due: Due, kind: Kind) -> Turn
    ensures { result ≡ turn_of due kind }
{
    match (due, kind) {
        (_, Kind::Settings) => Turn::Settings,
        (Due::Slot, Kind::Slot) => Turn::Slot,
        (Due::First, Kind::Choice) => Turn::First,
        (Due::Second, Kind::Choice) => Turn::Second,
        (Due::Unset, Kind::Slot) => Turn::Refusal,
        (Due::First, Kind::Slot) => Turn::Refusal,
        (Due::Second, Kind::Slot) => Turn::Refusal,
        (Due::Unset, Kind::Choice) => Turn::Refusal,
        (Due::Slot, Kind::Choice) => Turn::Refusal,
        (_, Kind::Unknown) => Turn::Refusal,
    }
}

// What is named at each input, by bytes that are known to be good.
fn read_choice(lines: u8, bytes: &[u8]) -> [Arrival; MOST_LINES]
    requires few { lines ≤ 32 }
    requires read { Ok tt ≡ verdict (judge lines 0 false bytes.now) }
    ensures { choice_of result ≡ arrivals_of (choice_lines lines bytes.now) }
{
    let mut choice = [Arrival::Nothing; MOST_LINES];
    let mut rest = bytes;
    // By number, and not by `iter_mut`: the array is given back from within the loop too.
    for input in 0..lines {
        let Some(entry) = read_entry(rest, NO_BODY) else {
            return choice;
        };
        choice[input as usize] = entry.arrival;
        rest = entry.rest;
    }
    choice
}

impl<'a> Crowd<'a> {
    // A crowd over what the caller lends, with no lines yet; None where that is too little.
    pub fn new(loan: Loan<'a>) -> Option<Crowd<'a>>
        ensures { MatchOption result (enough 64 8224 (lent_by loan.entry) ≡ false) (λ c. (enough 64 8224 (lent_by loan.entry) ≡ true) × Shows c Unset) }
    {
        let real = RealBox::new(loan)?;
        Some(Crowd {
            real,
            due: Due::Unset,
            away: [false; MOST_LINES],
        })
    }

    // Takes a settings word.
    fn take_settings(&mut self, word: &[u8], answer: &mut Answer) -> Result<(), Fault>
        ensures { (told : Draft) → Told result answer.new told → Settled (settings word.now) self.old self.new answer.old told }
    {
        let lines = read_settings(word)?;
        self.real.begin(lines);
        self.due = Due::Slot;
        answer.clear();
        Ok(())
    }

    // Takes the lines of a slot word: its cells arrive.
    fn take_slot(&mut self, lines: &[u8], answer: &mut Answer) -> Result<(), Fault>
        requires { self.old.due ≡ due.Slot }
        ensures { (told : Draft) → Told result answer.new told → Slotted (judge self.old.real.lines 64 (nat_le 4294967296 self.old.real.slots) lines.now) self.old self.new answer.old told }
    {
        // As a `Switch` compares: a function would give this comparison a name, and no more.
        let late = self.real.slots() >= SLOT_LIMIT;
        judge_lines(self.real.lines(), BODY, late, lines)?;
        self.away = self.real.arrive(lines);
        self.real.pass();
        self.due = Due::First;
        answer.clear();
        Ok(())
    }

    // The choice of a word, or its lowest fault.
    fn choose(&self, lines: &[u8]) -> Result<[Arrival; MOST_LINES], Fault>
        ensures { Choosing self.now lines.now result }
    {
        judge_lines(self.real.lines(), NO_BODY, false, lines)?;
        let choice = read_choice(self.real.lines(), lines);
        self.real.test(&choice)?;
        Ok(choice)
    }

    // Takes the lines of a first choice: its cells are transferred, and the earliest depart.
    fn take_first(&mut self, lines: &[u8], answer: &mut Answer) -> Result<(), Fault>
        requires { self.old.due ≡ due.First }
        ensures { (told : Draft) → Told result answer.new told → Chosen (λ ls. First ls self.old self.new answer.old told) (λ fault. Refused fault self.old self.new answer.old told) self.old (judge self.old.real.lines 0 false lines.now) }
    {
        let inputs = self.real.lines() as usize;
        let choice = self.choose(lines)?;
        self.real.transfer(&choice);
        answer.begin(ANSWER);
        self.real.depart(answer);
        self.due = Due::Second;
        answer.push_flags(&self.away[..inputs]);
        Ok(())
    }

    // Takes the lines of a second choice: its cells are transferred.
    fn take_second(&mut self, lines: &[u8], answer: &mut Answer) -> Result<(), Fault>
        requires { self.old.due ≡ due.Second }
        ensures { (told : Draft) → Told result answer.new told → Chosen (λ ls. Second ls self.old self.new answer.old told) (λ fault. Refused fault self.old self.new answer.old told) self.old (judge self.old.real.lines 0 false lines.now) }
    {
        let choice = self.choose(lines)?;
        self.real.transfer(&choice);
        self.due = Due::Slot;
        answer.clear();
        Ok(())
    }

    // Takes a word; a refusal is left to be written.
    fn take(&mut self, word: &[u8], answer: &mut Answer) -> Result<(), Fault>
        ensures { (told : Draft) → Told result answer.new told → (st : Status) → Shows self.old st → TurnDone self.old self.new st word.now answer.old told }
    {
        match turn_of(self.due, Kind::of(word)) {
            Turn::Settings => self.take_settings(word, answer),
            Turn::Slot => self.take_slot(&word[1..], answer),
            Turn::First => self.take_first(&word[1..], answer),
            Turn::Second => self.take_second(&word[1..], answer),
            Turn::Refusal => Err(Fault::Malformed),
        }
    }

    // Takes a word, and writes its answer.
    pub fn answer(&mut self, word: &[u8], answer: &mut Answer)
        ensures answers { (st : Status) → Shows self.old st → Answers st word.now answer.old answer.new }
        ensures goes_on { (st : Status) → Shows self.old st → Shows self.new (crowd_respond st word.now).0 }
        ensures keeps { (st : Status) → Shows self.old st → Keeps st word.now self.old self.new }
        ensures same { (n : ℕ) (s : SlotIn) (past : List SlotIn) (b : Box) (away : List Bool) → Shows self.old (FirstDue n (s ∷ past) b away) → (ls : List Line) → decide (FirstDue n (s ∷ past) b away) word.now ≡ Choose ls → take answer.new.len answer.new.bytes ≡ slot_answer n past s }
    {
        if let Err(fault) = self.take(word, answer) {
            answer.refuse(fault);
        }
    }
}

// For every first choice that is taken, the crowd answers what the ideal box answers to the slot before it.
pub fn the_same_cells_leave()
    ensures { SameAnswer }
{}

// So a slot word and a first choice after it are answered as the ideal box answers the slot word.
pub fn answers_as_the_ideal_box()
    ensures { SameAsIdeal }
{}
