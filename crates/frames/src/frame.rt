// Frames: each word is preceded by its length in two bytes, the high byte first.
ghost use Rattle.std.specs.Prelude.{◌≡◌, ◌+◌, ◌<◌, ◌≤◌, true, ◌++◌, length, IfSome, is_ok, if◌then◌else◌, Some, None, vec_len, vec_capacity, MatchOption};
ghost use Rattle.frames.specs.Frames.{frame_limit, framed, next_frame};

use crate::Taken;
use std::alloc::AllocError;

// How many bytes the length of a word takes.
const LENGTH_BYTES: usize = 2;

// The word of the first frame of a stream; None where the bytes end before the frame does.
pub fn next_frame(bytes: &[u8]) -> Option<Taken<'_>>
    ensures value { MatchOption result (next_frame bytes.now ≡ None) (λ t. next_frame bytes.now ≡ Some (t.word.now, t.rest.now)) }
    ensures bound { IfSome result (λ t. length t.word.now < frame_limit) }
    ensures shorter { IfSome result (λ t. length t.rest.now < length bytes.now) }
{
    let [high, low, behind @ ..] = bytes else {
        return None;
    };
    let size = u16::from_be_bytes([*high, *low]);
    let (word, rest) = behind.split_at_checked(usize::from(size))?;
    Some(Taken { word, rest })
}

// Adds the frame of a word to the end of `out`, or nothing where there is no memory for it.
pub fn push_frame(out: &mut Vec<u8>, word: &[u8]) -> Result<(), AllocError>
    requires { length word.now < frame_limit }
    ensures items { out.new.items ≡ (if is_ok result then out.old.items ++ framed word.now else out.old.items) }
    ensures succeeds { vec_len out.old + length (framed word.now) ≤ vec_capacity out.old → is_ok result ≡ true }
{
    out.reserve(LENGTH_BYTES + word.len())?;
    let [high, low] = (word.len() as u16).to_be_bytes();
    out.push_reserved(high);
    out.push_reserved(low);
    out.extend_from_slice(word)
}
