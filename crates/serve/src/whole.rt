// A whole stream in one call: its bytes in, the answers' bytes out.
ghost use Rattle.std.specs.Prelude.{◌≡◌, true, IfOk, MatchResult};
ghost use Rattle.std.specs.List.{flat_map};
ghost use Rattle.buffer.specs.Memory.{lent_by, enough};
ghost use Rattle.frames.specs.Frames.{framed};
ghost use Rattle.switch.specs.Respond.Status.{Unset};
ghost use Rattle.serve.specs.declared.whole.ServeError.TheVariants.{OutOfMemory};
ghost use Rattle.serve.specs.Served.{answers_to, stream_words, Fails};

use crate::form::Form;
use crate::server::Server;
use buffer::Loan;
use std::alloc::{AllocError, Global};
use std::fmt;
use switch::{Switch, best_box};

// Why a stream was not served.
#[derive(Clone, Copy)]
pub enum ServeError {
    TooLittleLent,
    OutOfMemory,
}

impl From<AllocError> for ServeError {
    ghost from_gives = { λ _ r. r ≡ OutOfMemory };

    fn from(_error: AllocError) -> ServeError {
        ServeError::OutOfMemory
    }
}

impl fmt::Display for ServeError {
    fn fmt<W: fmt::Write>(&self, f: &mut fmt::Formatter<W>) -> fmt::Result {
        match self {
            ServeError::TooLittleLent => write!(f, "too little memory is lent"),
            ServeError::OutOfMemory => write!(f, "out of memory"),
        }
    }
}

// The answers of a switch that is not set yet to a whole stream of frames.
pub fn answers_of<S: Switch>(
    switch: &mut S,
    heap: Global,
    input: &[u8],
) -> Result<Vec<u8>, AllocError>
    requires { S.Switch.shows switch.old Unset }
    ensures { IfOk result (λ v. v.items ≡ flat_map framed (answers_to Unset (stream_words input.now))) }
{
    let mut server = Server::new(switch, Form::Frames, heap);
    server.serve_whole(input)?;
    Ok(server.into_answers())
}

// The answers of the ideal box to a whole stream of frames, whatever its bytes are and whatever is lent.
pub fn answers(heap: Global, loan: Loan<'_>, input: &[u8]) -> Result<Vec<u8>, ServeError>
    ensures { MatchResult result (λ v. (v.items ≡ flat_map framed (answers_to Unset (stream_words input.now))) × (enough 32 256 (lent_by loan.entry) ≡ true)) (λ e. Fails e (enough 32 256 (lent_by loan.entry))) }
{
    let mut ideal = best_box(loan).ok_or(ServeError::TooLittleLent)?;
    Ok(answers_of(&mut ideal, heap, input)?)
}
