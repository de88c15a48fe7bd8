// A stream that comes by pieces.
ghost use Rattle.std.specs.Prelude.{◌≡◌, ℕ, ◌<◌, ◌≤◌, List, [], ◌++◌, drop, length, Result, IfOk, vec_len};
ghost use Rattle.std.specs.List.{flat_map};
ghost use Rattle.std.specs.declared.alloc.AllocError.{AllocError};
ghost use Rattle.switch.specs.Respond.Status.{Unset};
ghost use Rattle.serve.specs.Served.{answers_to};
ghost use Rattle.serve.specs.Form.{spelled, whole_words};
ghost use Rattle.serve.specs.Serving.{Takes};

use crate::form::Form;
use crate::server::Server;
use std::alloc::{AllocError, Global};
use switch::Switch;

// What serves the words of a stream, and writes something of them.
pub trait Service {
    // an input was served, up to where a number of bytes is used, or where memory gave out
    ghost serves: { Self → List ℕ → Result ℕ AllocError → Self → Type 0 };

    // what the end of a stream left over was served, or memory gave out
    ghost ends: { Self → List ℕ → Result (Unit {0}) AllocError → Self → Type 0 };

    // what was written
    ghost writes: { Self → List ℕ };

    // the same with nothing written
    ghost cleared: { Self → Self };

    // Serves all whole words at the start of the input; gives how many bytes they take.
    fn serve(&mut self, input: &[u8]) -> Result<usize, AllocError>
        ensures serves { serves self.old input.now result self.new }
        ensures within { IfOk result (λ used. used ≤ length input.now) };

    // Serves what the end of the stream leaves over.
    fn end(&mut self, left: &[u8]) -> Result<(), AllocError>
        ensures { ends self.old left.now result self.new };

    // What was written since it was last let go of.
    fn output(&self) -> &[u8]
        ensures { result.now ≡ writes self.now };

    // Lets go of what was written.
    fn clear(&mut self)
        ensures cleared { self.new ≡ cleared self.old }
        ensures empty { writes self.new ≡ [] };
}

// Lets go of the first bytes. What is left is little, and moved once: `drain` would turn all of the bytes round.
fn let_go(bytes: &mut Vec<u8>, used: usize)
    requires { used ≤ vec_len bytes.old }
    ensures { bytes.new.items ≡ drop used bytes.old.items }
{
    if used > 0 {
        let left = bytes.len() - used;
        bytes.copy_within(used.., 0);
        bytes.truncate(left);
    }
}

// What serves the words, and the bytes that begin no whole word yet.
#[derive(Drop)]
pub struct Stream<S> {
    pub service: S,
    pub pending: Vec<u8>,
}

impl<S: Service> Stream<S> {
    // Serves all whole words at the start of what is pending with a piece behind it, and keeps the
    // rest.
    pub fn take(&mut self, piece: &[u8]) -> Result<(), AllocError>
        ensures { Takes result S.serves self.old.service self.new.service (self.old.pending.items ++ piece.now) self.new.pending.items }
    {
        self.pending.extend_from_slice(piece)?;
        let used = self.service.serve(&self.pending)?;
        let_go(&mut self.pending, used);
        Ok(())
    }

    // Serves what the end of the stream leaves over, which stays as it is.
    pub fn end(&mut self) -> Result<(), AllocError>
        ensures ended { S.ends self.old.service self.old.pending.items result self.new.service }
        ensures kept { self.new.pending.items ≡ self.old.pending.items }
    {
        self.service.end(&self.pending)
    }
}

// The answers of a switch that is not set yet to a whole stream that comes by pieces of some size.
pub fn answers_by_pieces<S: Switch>(
    switch: &mut S,
    heap: Global,
    form: Form,
    input: &[u8],
    size: usize,
) -> Result<Vec<u8>, AllocError>
    requires unset { S.Switch.shows switch.old Unset }
    requires some { 0 < size }
    ensures { IfOk result (λ v. v.items ≡ flat_map (spelled form) (answers_to Unset (whole_words form input.now))) }
{
    let mut stream = Stream {
        service: Server::new(switch, form, heap),
        pending: Vec::new(heap),
    };
    for piece in input.chunks(size) {
        stream.take(piece)?;
    }
    stream.end()?;
    Ok(stream.service.into_answers())
}
