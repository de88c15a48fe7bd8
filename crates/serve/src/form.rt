// How words are written in a stream.
ghost use Rattle.std.specs.Prelude.{◌≡◌, ◌<◌, [], ◌∷◌, ◌++◌, Some, None, is_ok, if◌then◌else◌, length, IfSome, IfOk, MatchOption};
ghost use Rattle.frames.specs.Frames.{frame_limit};
ghost use Rattle.serve.specs.Form.{spelled, taken, word_in, ending};

use frames::Taken;
use frames::frame::{next_frame, push_frame};
use frames::hex::{next_line, push_hex_line, read_hex};
use std::alloc::AllocError;

// Frames with a length, or lines of hexadecimal digits. An argument of a program says which, so each method has a match and no
// type of its own for either.
#[derive(Clone, Copy)]
pub enum Form {
    Frames,
    Lines,
}

impl Form {
    // The first whole word, as it is written; None where the bytes end before it does.
    pub fn next(self, bytes: &[u8]) -> Option<Taken<'_>>
        ensures value { MatchOption result (taken self bytes.now ≡ None) (λ t. taken self bytes.now ≡ Some (t.word.now, t.rest.now)) }
        ensures shorter { IfSome result (λ t. length t.rest.now < length bytes.now) }
    {
        match self {
            Form::Frames => next_frame(bytes),
            Form::Lines => next_line(bytes),
        }
    }

    // What the end of a stream leaves over, as a word is written: a frame that is cut counts as the
    // empty word, and a last line needs no line feed.
    pub fn last(self, left: &[u8]) -> Option<&[u8]>
        ensures { MatchOption result (ending self left.now ≡ []) (λ w. ending self left.now ≡ word_in self w.now ∷ []) }
    {
        if left.is_empty() {
            return None;
        }
        match self {
            Form::Frames => Some(&left[..0]),
            Form::Lines => Some(left),
        }
    }

    // The word that is written so: a frame's as it stands, and that of a line from its digits.
    pub fn read<'a>(
        self,
        written: &'a [u8],
        scratch: &'a mut Vec<u8>,
    ) -> Result<&'a [u8], AllocError>
        ensures { IfOk result (λ w. w.now ≡ word_in self written.now) }
    {
        match self {
            Form::Frames => Ok(written),
            Form::Lines => {
                let _spells = read_hex(written, scratch)?;
                Ok(scratch)
            }
        }
    }

    // Adds a word to the end of `out`, or nothing where there is no memory for it.
    pub fn push(self, out: &mut Vec<u8>, word: &[u8]) -> Result<(), AllocError>
        requires { length word.now < frame_limit }
        ensures { out.new.items ≡ (if is_ok result then out.old.items ++ spelled self word.now else out.old.items) }
    {
        match self {
            Form::Frames => push_frame(out, word),
            Form::Lines => push_hex_line(out, word),
        }
    }
}
