// An answer while it is written: the buffer, and how many bytes of it are the answer so far.
ghost use Rattle.std.specs.Prelude.{◌≡◌, ◌+◌, ◌<◌, ◌≤◌, [], ◌∷◌, length, take};
ghost use Rattle.words.specs.Writing.{Draft, appended, cleared, blank, big_endian4, departure_bytes, refusal_bytes};
ghost use Rattle.words.specs.Answer.{flag_bytes};

use crate::fault::Fault;
use crate::{ANSWER_BYTES, BODY, DEPARTURE_BYTES, REFUSAL};
use crossbox::Cell;
use std::marker::Model;

// Writes a cell that leaves into a part of as many bytes.
fn write_departure(part: &mut [u8], cell: Cell, body: &[u8; BODY])
    requires { length part.old ≡ DEPARTURE_BYTES }
    ensures bytes { part.new ≡ departure_bytes cell body.now }
    ensures carried { length body.now ≡ BODY }
{
    part[0] = cell.input;
    part[1..5].copy_from_slice(&cell.slot.to_be_bytes());
    part[5..DEPARTURE_BYTES].copy_from_slice(body);
}

// Writes flags into a part of as many bytes. A function of its own: a loop over what `Answer` has would write its length too, in
// each turn.
fn write_flags(part: &mut [u8], turned_away: &[bool])
    requires { length part.old ≡ length turned_away.now }
    ensures { part.new ≡ flag_bytes turned_away.now }
{
    for (input, byte) in part.iter_mut().enumerate() {
        *byte = u8::from(turned_away[input]);
    }
}

#[derive(Drop)]
pub struct Answer {
    bytes: [u8; ANSWER_BYTES],
    len: usize,
}

// Contracts see the whole buffer: what stands behind the answer is never written.
impl Model for Answer {
    ghost use Rattle.std.specs.Prelude.{◌≤◌};
    ghost use Rattle.words.specs.Numbers.{longest_answer};
    ghost use Rattle.words.specs.Writing.{Draft};

    ghost Value = { Draft };

    ghost view = { λ a. record { bytes = a.bytes; len = a.len } };

    ghost invariant = { λ a. a.len ≤ longest_answer };
}

impl Answer {
    // Nothing is written yet.
    pub fn new() -> Answer
        ensures { result ≡ blank }
    {
        Answer {
            bytes: [0; ANSWER_BYTES],
            len: 0,
        }
    }

    // Begins anew; the buffer stays as it is until it is written over.
    pub fn clear(&mut self)
        ensures { self.new ≡ cleared self.old }
    {
        self.len = 0;
    }

    // Begins anew with the byte that says of which kind the answer is.
    pub fn begin(&mut self, kind: u8)
        ensures { self.new ≡ appended (kind ∷ []) (cleared self.old) }
    {
        self.clear();
        self.push(kind);
    }

    // The answer so far.
    pub fn as_bytes(&self) -> &[u8]
        ensures bytes { result.now ≡ take self.now.len self.now.bytes }
        ensures all { length result.now ≡ self.now.len }
        ensures within { self.now.len ≤ ANSWER_BYTES }
    {
        &self.bytes[..self.len]
    }

    // Writes one byte.
    #[tactic(auto, using(crate::proofs::Overwrites::appended_byte))]
    pub fn push(&mut self, b: u8)
        requires { self.old.len < ANSWER_BYTES }
        ensures { self.new ≡ appended (b ∷ []) self.old }
    {
        self.bytes[self.len] = b;
        self.len += 1;
    }

    // Writes a cell that leaves: its input, the slot in which it arrived, and what it carries.
    #[tactic(auto, using(crate::proofs::Overwrites::appended_part))]
    pub fn push_departure(&mut self, cell: Cell, body: &[u8; BODY])
        requires { self.old.len + DEPARTURE_BYTES ≤ ANSWER_BYTES }
        ensures bytes { self.new ≡ appended (departure_bytes cell body.now) self.old }
        ensures carried { length body.now ≡ BODY }
    {
        let end = self.len + DEPARTURE_BYTES;
        write_departure(&mut self.bytes[self.len..end], cell, body);
        self.len = end;
    }

    // Writes for each input whether its cell was turned away.
    #[tactic(auto, using(crate::proofs::Overwrites::appended_part))]
    pub fn push_flags(&mut self, turned_away: &[bool])
        requires { self.old.len + length turned_away.now ≤ ANSWER_BYTES }
        ensures { self.new ≡ appended (flag_bytes turned_away.now) self.old }
    {
        let end = self.len + turned_away.len();
        write_flags(&mut self.bytes[self.len..end], turned_away);
        self.len = end;
    }

    // Writes a refusal, and nothing else.
    pub fn refuse(&mut self, fault: Fault)
        ensures { self.new ≡ appended (refusal_bytes fault) (cleared self.old) }
    {
        self.begin(REFUSAL);
        self.push(u8::from(fault));
    }
}
