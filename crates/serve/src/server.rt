// A switch that serves the words of a stream.
ghost use Rattle.std.specs.Prelude.{◌≡◌, [], ◌∷◌};
ghost use Rattle.switch.specs.Respond.{Status};
ghost use Rattle.serve.specs.Form.{cut, ending, whole_words, word_in};
ghost use Rattle.serve.specs.Serving.{Serving, Serves, ServesUpTo};

use crate::form::Form;
use crate::stream::Service;
use std::alloc::{AllocError, Global};
use std::marker::Model;
use switch::Switch;
use words::Answer;

// A switch, and the answers that it has given since they were last let go of.
#[derive(Drop)]
pub struct Server<'a, S: Switch> {
    switch: &'a mut S,
    form: Form,
    scratch: Vec<u8>,
    answer: Answer,
    out: Vec<u8>,
}

impl<'a, S: Switch> Model for Server<'a, S> {
    ghost Value = { Serving S };

    ghost view = { λ s. record { lender = s.switch.ghost_name; switch = s.switch.now; form = s.form; answers = s.out.items } };

    ghost invariant = { λ s. (st : Status) × S.Switch.shows s.switch.now st };
}

impl<'a, S: Switch> Server<'a, S> {
    // A server that has given no answer yet.
    pub fn new(switch: &'a mut S, form: Form, heap: Global) -> Server<'a, S>
        requires { (st : Status) × S.Switch.shows switch.old st }
        ensures { result ≡ record { lender = switch.entry.ghost_name; switch = switch.old; form = form; answers = [] } }
    {
        Server {
            switch,
            form,
            scratch: Vec::new(heap),
            answer: Answer::new(),
            out: Vec::new(heap),
        }
    }

    // Serves a word, as it is written.
    fn serve_word(&mut self, written: &[u8]) -> Result<(), AllocError>
        ensures { Serves result S.Switch.shows (word_in self.old.form written.now ∷ []) self.old self.new }
    {
        let word = self.form.read(written, &mut self.scratch)?;
        self.switch.answer(word, &mut self.answer);
        let answer = self.answer.as_bytes();
        if answer.is_empty() {
            return Ok(());
        }
        self.form.push(&mut self.out, answer)
    }

    // Serves a whole stream, with what its end leaves over.
    pub fn serve_whole(&mut self, input: &[u8]) -> Result<(), AllocError>
        ensures { Serves result S.Switch.shows (whole_words self.old.form input.now) self.old self.new }
    {
        let used = self.serve(input)?;
        self.end(&input[used..])
    }

    // Ends with the switch as it is now.
    pub fn into_switch(self) -> &'a mut S
        ensures value { result.now ≡ self.entry.switch }
        ensures lent { result.ghost_name ≡ self.entry.lender }
    {
        let Server { switch, .. } = self;
        switch
    }

    // Ends with the switch as it is now, and with the answers.
    pub fn into_parts(self) -> (&'a mut S, Vec<u8>)
        ensures value { result.0.now ≡ self.entry.switch }
        ensures lent { result.0.ghost_name ≡ self.entry.lender }
        ensures answers { result.1.items ≡ self.entry.answers }
    {
        let Server { switch, out, .. } = self;
        (switch, out)
    }

    // Ends with the answers.
    pub fn into_answers(self) -> Vec<u8>
        ensures { result.items ≡ self.entry.answers }
    {
        let Server { out, .. } = self;
        out
    }
}

impl<'a, S: Switch> Service for Server<'a, S> {
    ghost serves = { λ was input r is. ServesUpTo r S.Switch.shows (cut was.form input) input was is };

    ghost ends = { λ was left r is. Serves r S.Switch.shows (ending was.form left) was is };

    ghost writes = { λ s. s.answers };

    ghost cleared = { λ s. record { lender = s.lender; switch = s.switch; form = s.form; answers = [] } };

    fn serve(&mut self, input: &[u8]) -> Result<usize, AllocError> {
        let mut rest = input;
        while let Some(taken) = self.form.next(rest) {
            self.serve_word(taken.word)?;
            rest = taken.rest;
        }
        Ok(input.len() - rest.len())
    }

    fn end(&mut self, left: &[u8]) -> Result<(), AllocError> {
        match self.form.last(left) {
            Some(written) => self.serve_word(written),
            None => Ok(()),
        }
    }

    fn output(&self) -> &[u8] {
        &self.out
    }

    fn clear(&mut self) {
        self.out.clear();
    }
}
