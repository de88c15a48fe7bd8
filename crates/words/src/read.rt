// Readers of words: each gives what the bytes say, or that they say nothing.
ghost use Rattle.std.specs.Prelude.{◌≡◌, length};
ghost use Rattle.words.specs.Kind.{kind_of};
ghost use Rattle.words.specs.Lines.{settings, read_entry, entry_of, judge, verdict};

use crate::fault::Fault;
use crate::{BODY, CHOICE, MOST_LINES, NONE, SETTINGS, SLOT};
use crossbox::Arrival;

// The kind of a word, by its first byte. `Unknown` is no None: a word of no kind is matched beside the others, in one match.
#[derive(Clone, Copy, PartialEq, Eq)]
pub enum Kind {
    Settings,
    Slot,
    Choice,
    Unknown,
}

impl Kind {
    // The kind of a word; unknown if it is empty. No `From`: it gives up all but the first byte.
    pub fn of(word: &[u8]) -> Kind
        ensures { result ≡ kind_of word.now }
    {
        match word {
            [SETTINGS, ..] => Kind::Settings,
            [SLOT, ..] => Kind::Slot,
            [CHOICE, ..] => Kind::Choice,
            _ => Kind::Unknown,
        }
    }
}

// The number of lines that a settings word gives.
pub fn read_settings(word: &[u8]) -> Result<u8, Fault>
    ensures { result ≡ settings word.now }
{
    let [_, lines] = word else {
        return Err(Fault::Malformed);
    };
    if *lines == 0 || *lines as usize > MOST_LINES {
        return Err(Fault::LineCount);
    }
    Ok(*lines)
}

// One input's part of a word, and the bytes behind it that are not yet read. The body is empty where nothing arrives: it is what
// stands in the word, and a body within `Arrival` would go into every choice too.
#[derive(Clone, Copy)]
pub struct Entry<'a> {
    pub arrival: Arrival,
    pub body: &'a [u8],
    pub rest: &'a [u8],
}

// Reads one input's part, with a body of `size` bytes where a cell arrives; `None` where the bytes end before.
#[tactic(auto, unfolding(crate::specs::Lines::read_entry))]
pub fn read_entry(bytes: &[u8], size: usize) -> Option<Entry<'_>>
    ensures { entry_of result ≡ read_entry size bytes.now }
{
    let [first, behind @ ..] = bytes else {
        return None;
    };
    if *first == NONE {
        return Some(Entry {
            arrival: Arrival::Nothing,
            body: &behind[0..0],
            rest: behind,
        });
    }
    if behind.len() < size {
        return None;
    }
    Some(Entry {
        arrival: Arrival::For(*first),
        body: &behind[0..size],
        rest: &behind[size..],
    })
}

// What a cell carries, as an array. No `TryFrom`: it cannot fail, as the caller has seen how many bytes there are.
pub fn body_of(bytes: &[u8]) -> [u8; BODY]
    requires { length bytes.now ≡ BODY }
    ensures { result ≡ bytes.now }
{
    let mut body = [0; BODY];
    body.copy_from_slice(bytes);
    body
}

// Judges the n lines of a word, whose bytes have to end with the last: the lowest fault, or none.
pub fn judge_lines(n: u8, size: usize, late: bool, bytes: &[u8]) -> Result<(), Fault>
    ensures { result ≡ verdict (judge n size late bytes.now) }
{
    let mut rest = bytes;
    let mut all_fit = true;
    for _ in 0..n {
        let Some(entry) = read_entry(rest, size) else {
            return Err(Fault::Malformed);
        };
        if let Arrival::For(output) = entry.arrival {
            all_fit &= output < n;
        }
        rest = entry.rest;
    }
    if rest.len() > 0 {
        return Err(Fault::Malformed);
    }
    if !all_fit {
        return Err(Fault::NoSuchOutput);
    }
    if late {
        return Err(Fault::SlotLimit);
    }
    Ok(())
}
