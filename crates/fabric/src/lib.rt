// The real box with the finding's choices, as a switch.
#![tactic(auto)]

ghost use Rattle.std.specs.Prelude.{◌≡◌, ℕ, ◌+◌, ◌^◌, ◌<◌, ◌≤◌, true, false, List, [], length, Ok, MatchOption};
ghost use Rattle.crossbox.specs.Box.{Box};
ghost use Rattle.matching.specs.Making.{TableOf};
ghost use Rattle.matching.specs.Table.{Finds};
ghost use Rattle.cioq.specs.Arrivals.{slot_lines};
ghost use Rattle.cioq.specs.State.{Aimed};
ghost use Rattle.buffer.specs.Memory.{lent_by, enough, fresh};
ghost use Rattle.words.specs.Lines.{judge, verdict};
ghost use Rattle.switch.specs.Respond.{SlotIn};
ghost use Rattle.switch.specs.Respond.Status.{Unset};
ghost use Rattle.buffer.specs.Lent.{lent_to};
ghost use Rattle.fabric.specs.Real.{Tied, Runs, Shows, up_to};
ghost use Rattle.fabric.specs.Laws.{TwoTransfers, FoundIsTaken, ModelIsRun};
ghost use Rattle.switch.specs.Taking.{Serves};

use buffer::Loan;
use cioq::RealBox;
use matching::{Firsts, Found, find};
use switch::Switch;
use words::{ANSWER, Answer};

// The real box, and the table in which a choice is sought.
#[derive(Drop)]
pub struct Fabric<'a> {
    real: RealBox<'a>,
    firsts: Firsts,
}

// Notes the list of an input in the table.
fn scan(real: &RealBox<'_>, firsts: &mut Firsts, input: u8)
    requires aimed { Aimed real.now }
    requires there { (input < 32) × (input < real.now.lines) }
    ensures { TableOf firsts.old (up_to real.now input 0) → TableOf firsts.new (up_to real.now (input + 1) 0) }
{
    for k in 0..real.waiting(input) {
        firsts.note(input, k as u16, real.waiting_cell(input, k));
    }
}

// Makes the table of the first cell of each pair.
fn tabulate(real: &RealBox<'_>, firsts: &mut Firsts)
    requires { Aimed real.now }
    ensures { TableOf firsts.new (up_to real.now real.now.lines 0) }
{
    firsts.clear();
    for input in 0..real.lines() {
        scan(real, firsts, input);
    }
}

// Finds the choice that is transferred.
fn choose(real: &RealBox<'_>, firsts: &mut Firsts) -> Found
    requires aimed { Aimed real.now }
    requires tied { (b : Box) × Tied real.now b }
    ensures { (b : Box) → Tied real.now b → Finds result real.now.lines b }
{
    tabulate(real, firsts);
    find(firsts, real.lines())
}

impl<'a> Fabric<'a> {
    // A box over what the caller lends, with no lines yet; None where that is too little.
    pub fn new(loan: Loan<'a>) -> Option<Fabric<'a>>
        ensures { MatchOption result (enough 64 8224 (lent_by loan.entry) ≡ false) (λ b. (enough 64 8224 (lent_by loan.entry) ≡ true) × Shows b.real Unset × (b.real.mem ≡ fresh 64 8224 (lent_by loan.entry))) }
    {
        let real = RealBox::new(loan)?;
        Some(Fabric {
            real,
            firsts: Firsts::new(),
        })
    }

    // Serves a slot whose lines have been judged good, and writes its answer.
    fn serve_slot(&mut self, lines: &[u8], answer: &mut Answer)
        requires runs { (past : List SlotIn) × Runs self.old.real self.old.real.lines past }
        requires early { self.old.real.slots < 2 ^ 32 }
        requires read { Ok tt ≡ verdict (judge self.old.real.lines 64 false lines.now) }
        ensures { (past : List SlotIn) → Runs self.old.real self.old.real.lines past → Serves (Shows self.new.real) 16448 self.old.real.lines past (slot_lines self.old.real.lines lines.now) (lent_to self.old.real.mem) (lent_to self.new.real.mem) answer.old answer.new }
    {
        let inputs = self.real.lines() as usize;
        let turned_away = self.real.arrive(lines);
        let first = choose(&self.real, &mut self.firsts);
        self.real.transfer(&first.choice);
        answer.begin(ANSWER);
        self.real.depart(answer);
        let second = choose(&self.real, &mut self.firsts);
        self.real.transfer(&second.choice);
        self.real.pass();
        answer.push_flags(&turned_away[..inputs]);
    }
}

impl Switch for Fabric<'_> {
    ghost shows = { λ b st. Shows b.real st };

    ghost lent = { λ b. lent_to b.real.mem };

    ghost width = { λ b. 16448 };

    fn lines(&self) -> u8 {
        self.real.lines()
    }

    fn slots(&self) -> u64 {
        self.real.slots()
    }

    fn begin(&mut self, lines: u8) {
        self.real.begin(lines);
    }

    fn slot(&mut self, lines: &[u8], answer: &mut Answer) {
        self.serve_slot(lines, answer);
    }
}

// After a slot the lists and stores are the model's, gone over twice by the finding's choices, one cell a line each time.
pub fn lists_and_stores_are_the_models()
    ensures { TwoTransfers }
{}

// The model's box with the finding's choices is reached by a run.
pub fn the_model_is_a_run()
    ensures { ModelIsRun }
{}

// What is found is a choice that passes the test of choices.
pub fn what_is_found_is_taken()
    ensures { FoundIsTaken }
{}
