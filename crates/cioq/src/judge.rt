// The test of a choice: the lowest of its faults, or none.
ghost use Rattle.std.specs.Prelude.{◌≡◌, ℕ, ◌<◌, ◌≤◌};
ghost use Rattle.std.specs.List.{AllByRecursion};
ghost use Rattle.crossbox.specs.Promise.{Fits};
ghost use Rattle.cioq.specs.State.{Aimed};
ghost use Rattle.cioq.specs.Spells.{cells, box_of};
ghost use Rattle.cioq.specs.Choice.{choice_of, waits_in, all_wait, one_output, named, picks, gets_of, table_of, settled, all_settled, judge_choice, JudgedIsStable};
ghost use Rattle.cioq.specs.Named.{StableIsNamed};

use crate::RealBox;
use crate::search::first_for;
use bits::{has, with};
use crossbox::{Arrival, Cell, is_earlier};
use words::{Fault, MOST_LINES};

// A choice is taken just where each cell that it names waits, and it is stable.
pub fn taken_choices_are_stable()
    ensures { JudgedIsStable }
{}

// Of a box in order, a choice by input names just the cells of any stable choice, and each of them waits.
pub fn stable_choices_are_named()
    ensures { StableIsNamed }
{}

// Whether no two of the first inputs name cells for one output.
fn one_for_each(lines: u8, choice: &[Arrival; MOST_LINES]) -> bool
    requires few { lines ≤ 32 }
    requires fits { Fits lines (choice_of choice.now) }
    ensures { result ≡ one_output lines (choice_of choice.now) }
{
    let mut outputs = 0u32;
    for &arrival in choice.iter().take(usize::from(lines)) {
        let Arrival::For(output) = arrival else {
            continue;
        };
        if has(outputs, output) {
            return false;
        }
        outputs = with(outputs, output);
    }
    true
}

impl<'a> RealBox<'a> {
    // The cell that is named at an input, if it waits there.
    pub fn named_at(&self, input: u8, arrival: Arrival) -> Option<Cell>
        requires there { input < self.now.lines }
        ensures { result ≡ named arrival (cells self.now.mem input) }
    {
        let Arrival::For(output) = arrival else {
            return None;
        };
        let k = first_for(&self.memory, input, output)?;
        Some(self.memory.cell(input, k))
    }

    // Whether the cell that is named at an input, if any, waits there.
    fn waits(&self, input: u8, arrival: Arrival) -> bool
        requires there { input < self.now.lines }
        ensures { result ≡ waits_in arrival (cells self.now.mem input) }
    {
        let Arrival::For(output) = arrival else {
            return true;
        };
        first_for(&self.memory, input, output).is_some()
    }

    // Whether every cell that is named waits.
    fn all_wait(&self, choice: &[Arrival; MOST_LINES]) -> bool
        ensures { result ≡ all_wait self.now.lines (choice_of choice.now) (box_of self.now.lines self.now.mem) }
    {
        (0..self.lines)
            .zip(choice)
            .all(|(input, &arrival)| self.waits(input, arrival))
    }

    // By output, the cell that it gets.
    fn gets(&self, choice: &[Arrival; MOST_LINES]) -> [Option<Cell>; MOST_LINES]
        requires fits { Fits self.now.lines (choice_of choice.now) }
        ensures { (o : ℕ) → o < 32 → table_of result o ≡ gets_of (picks self.now.lines (choice_of choice.now) (box_of self.now.lines self.now.mem)) o }
    {
        let mut gets = [None; MOST_LINES];
        for (input, &arrival) in (0..self.lines).zip(choice) {
            if let Some(cell) = self.named_at(input, arrival) {
                gets[cell.output as usize] = Some(cell);
            }
        }
        gets
    }

    // Whether each cell of a list, up to the one that its input sends, has an output that gets an earlier one.
    fn settled(&self, input: u8, arrival: Arrival, gets: &[Option<Cell>; MOST_LINES]) -> bool
        requires there { input < self.now.lines }
        requires aimed { AllByRecursion (λ c. c.output < 32) (cells self.now.mem input) }
        ensures { result ≡ settled (table_of gets.now) arrival (cells self.now.mem input) }
    {
        (0..self.memory.len(input))
            .map(|k| self.memory.cell(input, k))
            .take_while(|cell| arrival != Arrival::For(cell.output))
            .all(|cell| gets[cell.output as usize].is_some_and(|other| is_earlier(other, cell)))
    }

    // Whether that holds of every list.
    fn all_settled(&self, choice: &[Arrival; MOST_LINES], gets: &[Option<Cell>; MOST_LINES]) -> bool
        requires aimed { Aimed self.now }
        ensures { result ≡ all_settled self.now.lines (table_of gets.now) (choice_of choice.now) (box_of self.now.lines self.now.mem) }
    {
        (0..self.lines)
            .zip(choice)
            .all(|(input, &arrival)| self.settled(input, arrival, gets))
    }

    // The lowest fault of a choice: a cell that does not wait, two for one output, or one that is left behind without a reason.
    pub fn test(&self, choice: &[Arrival; MOST_LINES]) -> Result<(), Fault>
        requires fits { Fits self.now.lines (choice_of choice.now) }
        requires aimed { Aimed self.now }
        ensures { result ≡ judge_choice self.now.lines (choice_of choice.now) (box_of self.now.lines self.now.mem) }
    {
        if !self.all_wait(choice) {
            return Err(Fault::NotWaiting);
        }
        if !one_for_each(self.lines, choice) {
            return Err(Fault::SharedOutput);
        }
        let gets = self.gets(choice);
        if !self.all_settled(choice, &gets) {
            return Err(Fault::Unstable);
        }
        Ok(())
    }
}
