// A crowd that takes the words of a stream, and what is told of it.
ghost use Rattle.std.specs.Prelude.{◌≡◌, [], string_bytes};
ghost use Rattle.switch.specs.Respond.{Status};
ghost use Rattle.switch.specs.Best.{Shows};
ghost use Rattle.crowd_text.specs.Telling.{Told, SameBoxes};

use crate::tell::{
    departures, picks_of, tell_differs, tell_leaves, tell_over, tell_settings, tell_slot,
    tell_waits,
};
use crossbox::Cell;
use crowd::{Crowd, Due};
use ideal::IdealBox;
use serve::{Form, Service};
use std::alloc::{AllocError, Global};
use std::fmt::Write;
use std::marker::Model;
use switch::Switch;
use words::{Answer, Kind, MOST_LINES, REFUSAL};

// A crowd, the ideal box on the same slots, and the text of what happens.
#[derive(Drop)]
pub struct Telling<'b, 'c, 'i> {
    crowd: &'b mut Crowd<'c>,
    ideal: &'b mut IdealBox<'i>,
    form: Form,
    scratch: Vec<u8>,
    real: Answer,
    other: Answer,
    text: String,
}

impl<'b, 'c, 'i> Model for Telling<'b, 'c, 'i> {
    ghost Value = { Told };

    ghost view = { λ t. record { crowd_lender = t.crowd.ghost_name; ideal_lender = t.ideal.ghost_name; crowd = t.crowd.now; ideal = t.ideal.now; form = t.form; text = string_bytes t.text } };

    ghost invariant = { λ t. (st : Status) × Shows t.ideal.now st };
}

impl<'b, 'c, 'i> Telling<'b, 'c, 'i> {
    // Two boxes of which nothing was told yet.
    pub fn new(
        crowd: &'b mut Crowd<'c>,
        ideal: &'b mut IdealBox<'i>,
        form: Form,
        heap: Global,
    ) -> Telling<'b, 'c, 'i>
        requires { (st : Status) × Shows ideal.old st }
        ensures { result ≡ record { crowd_lender = crowd.entry.ghost_name; ideal_lender = ideal.entry.ghost_name; crowd = crowd.old; ideal = ideal.old; form = form; text = [] } }
    {
        Telling {
            crowd,
            ideal,
            form,
            scratch: Vec::new(heap),
            real: Answer::new(),
            other: Answer::new(),
            text: String::new(heap),
        }
    }

    // A first choice that was taken, with the answers of the crowd and of the ideal box.
    fn tell_first(&mut self, picks: &[Option<Cell>; MOST_LINES]) -> Result<(), AllocError>
        ensures { SameBoxes self.old self.new }
    {
        let lines = self.crowd.lines();
        let text = &mut self.text;
        writeln!(text, "choice 1")?;
        tell_over(picks, text)?;
        tell_leaves(lines, departures(&self.real), text)?;
        tell_differs(lines, departures(&self.real), departures(&self.other), text)
    }

    // A second choice that was taken.
    fn tell_second(&mut self, picks: &[Option<Cell>; MOST_LINES]) -> Result<(), AllocError>
        ensures { SameBoxes self.old self.new }
    {
        writeln!(self.text, "choice 2")?;
        tell_over(picks, &mut self.text)?;
        tell_waits(self.crowd, &mut self.text)
    }

    // Takes a word, as it is written, the ideal box too unless it is a choice, and adds what
    // happened to the text.
    pub fn tell_word(&mut self, written: &[u8]) -> Result<(), AllocError>
        ensures { SameBoxes self.old self.new }
    {
        let word = self.form.read(written, &mut self.scratch)?;
        let due = self.crowd.due();
        let picks = picks_of(self.crowd, word);
        self.crowd.answer(word, &mut self.real);
        if let [REFUSAL, fault] = self.real.as_bytes() {
            return writeln!(self.text, "refused {fault}");
        }
        match Kind::of(word) {
            Kind::Settings => {
                self.ideal.answer(word, &mut self.other);
                tell_settings(self.crowd, &mut self.text)
            }
            Kind::Slot => {
                self.ideal.answer(word, &mut self.other);
                tell_slot(self.crowd, &mut self.text)
            }
            Kind::Choice => match due {
                Due::First => self.tell_first(&picks),
                _ => self.tell_second(&picks),
            },
            Kind::Unknown => Ok(()),
        }
    }

    // Ends with both boxes as they are now.
    pub fn into_boxes(self) -> (&'b mut Crowd<'c>, &'b mut IdealBox<'i>)
        ensures crowd { result.0.now ≡ self.entry.crowd }
        ensures ideal { result.1.now ≡ self.entry.ideal }
        ensures shows { (st : Status) × Shows result.1.now st }
        ensures crowd_lent { result.0.ghost_name ≡ self.entry.crowd_lender }
        ensures ideal_lent { result.1.ghost_name ≡ self.entry.ideal_lender }
    {
        let Telling { crowd, ideal, .. } = self;
        (crowd, ideal)
    }

    // Ends with both boxes as they are now, and with the text.
    pub fn into_parts(self) -> (&'b mut Crowd<'c>, &'b mut IdealBox<'i>, String)
        ensures crowd { result.0.now ≡ self.entry.crowd }
        ensures ideal { result.1.now ≡ self.entry.ideal }
        ensures shows { (st : Status) × Shows result.1.now st }
        ensures crowd_lent { result.0.ghost_name ≡ self.entry.crowd_lender }
        ensures ideal_lent { result.1.ghost_name ≡ self.entry.ideal_lender }
        ensures text { string_bytes result.2 ≡ self.entry.text }
    {
        let Telling {
            crowd,
            ideal,
            text,
            ..
        } = self;
        (crowd, ideal, text)
    }

    // Ends with the text.
    pub fn into_text(self) -> String
        ensures { string_bytes result ≡ self.entry.text }
    {
        let Telling { text, .. } = self;
        text
    }
}

impl<'b, 'c, 'i> Service for Telling<'b, 'c, 'i> {
    ghost serves = { λ was _ _ is. SameBoxes was is };

    ghost ends = { λ was _ _ is. SameBoxes was is };

    ghost writes = { λ t. t.text };

    ghost cleared = { λ t. record { crowd_lender = t.crowd_lender; ideal_lender = t.ideal_lender; crowd = t.crowd; ideal = t.ideal; form = t.form; text = [] } };

    // The loop of `Server` again: one loop for both would say of any words taken in turn what each says of its own.
    fn serve(&mut self, input: &[u8]) -> Result<usize, AllocError> {
        let mut rest = input;
        while let Some(taken) = self.form.next(rest) {
            self.tell_word(taken.word)?;
            rest = taken.rest;
        }
        Ok(input.len() - rest.len())
    }

    fn end(&mut self, left: &[u8]) -> Result<(), AllocError> {
        match self.form.last(left) {
            Some(written) => self.tell_word(written),
            None => Ok(()),
        }
    }

    fn output(&self) -> &[u8] {
        self.text.as_bytes()
    }

    fn clear(&mut self) {
        self.text.clear();
    }
}
