// What a box is to the outside: a word in, an answer out.
#![tactic(auto)]

ghost use Rattle.std.specs.Prelude.{◌≡◌, ℕ, ◌^◌, ◌<◌, ◌≤◌, false, List, length, Ok, nat_le};
ghost use Rattle.buffer.specs.Memory.{Lent};
ghost use Rattle.words.specs.Lines.{Line, settings, judge};
ghost use Rattle.switch.specs.Respond.{Status, SlotIn, settings_verdict, slot_verdict, decide, respond};
ghost use Rattle.switch.specs.Respond.Status.{Running};
ghost use Rattle.switch.specs.Promise.{Answers, Keeps, lines_of, step_of};
ghost use Rattle.switch.specs.Taking.{Begins, Serves, Takes};

mod best;

pub use best::best_box;
use words::{Answer, BODY, Fault, Kind, SLOT_LIMIT, judge_lines, read_settings};

// What a box is ready for.
#[derive(Clone, Copy)]
enum Step {
    Unset,
    Slot,
}

// A box that takes words and answers them just as the ideal box does. That a status is shown stands in the clauses: a law of the
// trait would speak of every value of the box's state, and not only of those that a box can have.
pub trait Switch {
    // the box is one with this status
    ghost shows: { Self → Status → Type 0 };

    // all lent memory
    ghost lent: { Self → Lent };

    // how many entries of rows a line takes
    ghost width: { Self → ℕ };

    // How many lines there are; 0 before the first settings.
    fn lines(&self) -> u8
        requires { (st : Status) × shows self.now st }
        ensures lines { (st : Status) → shows self.now st → result ≡ lines_of st }
        ensures set { (n : ℕ) (past : List SlotIn) → shows self.now (Running n past) → 0 < result };

    // How many slots the box has had since its settings.
    fn slots(&self) -> u64
        requires { (st : Status) × shows self.now st }
        ensures { (n : ℕ) (past : List SlotIn) → shows self.now (Running n past) → result ≡ length past };

    // Begins anew and empty, with so many lines.
    fn begin(&mut self, lines: u8)
        requires shown { (st : Status) × shows self.old st }
        requires there { (0 < lines) × (lines ≤ 32) }
        ensures { Begins (shows self.new) (width self.old) lines (lent self.old) (lent self.new) };

    // Serves a slot whose lines have been judged good, and writes its answer.
    fn slot(&mut self, lines: &[u8], answer: &mut Answer)
        requires { (n : ℕ) × (past : List SlotIn) × (ls : List Line) × shows self.old (Running n past) × (length past < 2 ^ 32) × (judge n 64 false lines.now ≡ Ok ls) }
        ensures { (n : ℕ) (past : List SlotIn) (ls : List Line) → shows self.old (Running n past) → judge n 64 false lines.now ≡ Ok ls → Serves (shows self.new) (width self.old) n past ls (lent self.old) (lent self.new) answer.old answer.new };

    // Takes a word, and writes its answer.
    final fn answer(&mut self, word: &[u8], answer: &mut Answer)
        requires { (st : Status) × shows self.old st }
        ensures answers { (st : Status) → shows self.old st → Answers st word.now answer.old answer.new }
        ensures goes_on { (st : Status) → shows self.old st → shows self.new (respond st word.now).0 }
        ensures keeps { (st : Status) → shows self.old st → Keeps (width self.old) st word.now (lent self.old) (lent self.new) }
    {
        if let Err(fault) = take(self, word, answer) {
            answer.refuse(fault);
        }
    }
}

// What a box is ready for.
fn ready_for<S: Switch>(switch: &S) -> Step
    requires { (st : Status) × S.shows switch.now st }
    ensures step { (st : Status) → S.shows switch.now st → result ≡ step_of (lines_of st) }
    ensures set { (n : ℕ) (past : List SlotIn) → S.shows switch.now (Running n past) → 0 < n }
{
    if switch.lines() == 0 {
        Step::Unset
    } else {
        Step::Slot
    }
}

// Takes a word; a refusal is left to be written.
fn take<S: Switch>(switch: &mut S, word: &[u8], answer: &mut Answer) -> Result<(), Fault>
    requires { (st : Status) × S.shows switch.old st }
    ensures { (st : Status) → S.shows switch.old st → Takes S.shows S.lent (S.width switch.old) st switch.old switch.new result answer.old answer.new (decide st word.now) }
{
    match (ready_for(switch), Kind::of(word)) {
        (_, Kind::Settings) => take_settings(switch, word, answer),
        (Step::Slot, Kind::Slot) => take_slot(switch, &word[1..], answer),
        (Step::Unset, Kind::Slot) => Err(Fault::Malformed),
        (_, Kind::Choice) => Err(Fault::Malformed),
        (_, Kind::Unknown) => Err(Fault::Malformed),
    }
}

// Takes a settings word.
fn take_settings<S: Switch>(switch: &mut S, word: &[u8], answer: &mut Answer) -> Result<(), Fault>
    requires { (st : Status) × S.shows switch.old st }
    ensures { (st : Status) → Takes S.shows S.lent (S.width switch.old) st switch.old switch.new result answer.old answer.new (settings_verdict (settings word.now)) }
{
    let lines = read_settings(word)?;
    switch.begin(lines);
    answer.clear();
    Ok(())
}

// Takes the lines of a slot word.
fn take_slot<S: Switch>(switch: &mut S, lines: &[u8], answer: &mut Answer) -> Result<(), Fault>
    requires { (n : ℕ) × (past : List SlotIn) × S.shows switch.old (Running n past) }
    ensures { (n : ℕ) (past : List SlotIn) → S.shows switch.old (Running n past) → Takes S.shows S.lent (S.width switch.old) (Running n past) switch.old switch.new result answer.old answer.new (slot_verdict (judge n 64 (nat_le 4294967296 (length past)) lines.now)) }
{
    let late = switch.slots() >= SLOT_LIMIT;
    judge_lines(switch.lines(), BODY, late, lines)?;
    switch.slot(lines, answer);
    Ok(())
}
