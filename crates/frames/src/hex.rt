// Lines of hexadecimal digits: a word to a line, two digits to a byte.
ghost use Rattle.std.specs.Prelude.{◌≡◌, ℕ, ◌+◌, ◌*◌, ◌/◌, ◌^◌, ◌<◌, ◌≤◌, true, List, [], ◌∷◌, ◌++◌, length, is_some, IfSome, is_ok, IfOk, if◌then◌else◌, Some, None, vec_len, vec_capacity, MatchOption};
ghost use Rattle.std.specs.Option.{unwrap_or};
ghost use Rattle.frames.specs.Hex.{digit_values, digits_per_byte, blank, digit_value, digit, unhex, hex_line, next_line};
ghost use Rattle.frames.specs.Reading.{comes_to, begun, Digit};

use crate::Taken;
use std::alloc::AllocError;

const SPACE: u8 = b' ';

const TAB: u8 = b'\t';

const CARRIAGE_RETURN: u8 = b'\r';

const LINE_FEED: u8 = b'\n';

// How many values a digit has.
const DIGIT_VALUES: u8 = 16;

// The value of the digit `a`.
const LETTER_VALUE: u8 = 10;

// For each character its value as a digit, or a number that no digit has. `to_digit` finds the same by up to seven comparisons, one of
// which goes now this way and now that from digit to digit: with it a line takes more than twice the time.
const VALUES: [u8; 256] = [
    255, 255, 255, 255, 255, 255, 255, 255, 255, 255, 255, 255, 255, 255, 255, 255, 255, 255, 255,
    255, 255, 255, 255, 255, 255, 255, 255, 255, 255, 255, 255, 255, 255, 255, 255, 255, 255, 255,
    255, 255, 255, 255, 255, 255, 255, 255, 255, 255, 0, 1, 2, 3, 4, 5, 6, 7, 8, 9, 255, 255, 255,
    255, 255, 255, 255, 10, 11, 12, 13, 14, 15, 255, 255, 255, 255, 255, 255, 255, 255, 255, 255,
    255, 255, 255, 255, 255, 255, 255, 255, 255, 255, 255, 255, 255, 255, 255, 255, 10, 11, 12, 13,
    14, 15, 255, 255, 255, 255, 255, 255, 255, 255, 255, 255, 255, 255, 255, 255, 255, 255, 255,
    255, 255, 255, 255, 255, 255, 255, 255, 255, 255, 255, 255, 255, 255, 255, 255, 255, 255, 255,
    255, 255, 255, 255, 255, 255, 255, 255, 255, 255, 255, 255, 255, 255, 255, 255, 255, 255, 255,
    255, 255, 255, 255, 255, 255, 255, 255, 255, 255, 255, 255, 255, 255, 255, 255, 255, 255, 255,
    255, 255, 255, 255, 255, 255, 255, 255, 255, 255, 255, 255, 255, 255, 255, 255, 255, 255, 255,
    255, 255, 255, 255, 255, 255, 255, 255, 255, 255, 255, 255, 255, 255, 255, 255, 255, 255, 255,
    255, 255, 255, 255, 255, 255, 255, 255, 255, 255, 255, 255, 255, 255, 255, 255, 255, 255, 255,
    255, 255, 255, 255, 255, 255, 255, 255, 255, 255, 255, 255, 255, 255, 255, 255, 255, 255, 255,
    255, 255, 255,
];

// How many digits a byte has.
const DIGITS_PER_BYTE: usize = 2;

// A line of digits while it is read: whole bytes so far, a byte begun by its high digit, or no word.
#[derive(Clone, Copy)]
enum Reading {
    Whole,
    Half(u8),
    Wrong,
}

// The first line of a stream without its line feed; None where there is no line feed.
pub fn next_line(bytes: &[u8]) -> Option<Taken<'_>>
    ensures value { MatchOption result (next_line bytes.now ≡ None) (λ t. next_line bytes.now ≡ Some (t.word.now, t.rest.now)) }
    ensures shorter { IfSome result (λ t. length t.rest.now < length bytes.now) }
{
    let end = bytes.iter().position(|c| *c == LINE_FEED)?;
    Some(Taken {
        word: &bytes[..end],
        rest: &bytes[end + 1..],
    })
}

// Makes `word` the word that a line spells, its line feed left out, and says whether it spells one.
// Where it spells none, and where there is no memory, `word` is left empty. No option of the word: it stays in the caller's scratch,
// of which the contract speaks too.
pub fn read_hex(line: &[u8], word: &mut Vec<u8>) -> Result<bool, AllocError>
    ensures value { IfOk result (λ spells. spells ≡ is_some (unhex line.now)) }
    ensures items { word.new.items ≡ (if is_ok result then unwrap_or (unhex line.now) [] else []) }
    ensures succeeds { length line.now / digits_per_byte ≤ vec_capacity word.old → is_ok result ≡ true }
{
    word.clear();
    word.reserve(line.len() / DIGITS_PER_BYTE)?;
    let mut reading = Reading::Whole;
    for c in line {
        reading = read_on(reading, *c, word);
    }
    match reading {
        Reading::Whole => Ok(true),
        Reading::Half(_) | Reading::Wrong => {
            word.clear();
            Ok(false)
        }
    }
}

// Adds the line of a word to the end of `out`, or nothing where there is no memory for it.
pub fn push_hex_line(out: &mut Vec<u8>, word: &[u8]) -> Result<(), AllocError>
    ensures items { out.new.items ≡ (if is_ok result then out.old.items ++ hex_line word.now else out.old.items) }
    ensures succeeds { vec_len out.old + length (hex_line word.now) ≤ vec_capacity out.old → is_ok result ≡ true }
{
    let size = line_size(word).ok_or(AllocError)?;
    out.reserve(size)?;
    let before = out.len();
    out.resize(before + size, LINE_FEED)?;
    write_hex_line(&mut out[before..], word);
    Ok(())
}

// Writes the line of a word into a part that is as long. A function of its own: a loop that pushes writes the length of `out` too, in
// each turn.
fn write_hex_line(part: &mut [u8], word: &[u8])
    requires { length part.old ≡ length (hex_line word.now) }
    ensures { part.new ≡ hex_line word.now }
{
    for (i, b) in word.iter().enumerate() {
        part[2 * i] = hex_digit(*b / DIGIT_VALUES);
        part[2 * i + 1] = hex_digit(*b % DIGIT_VALUES);
    }
    part[2 * word.len()] = LINE_FEED;
}

// Reads one more character of a line, which may end a byte of the word.
fn read_on(reading: Reading, c: u8, word: &mut Vec<u8>) -> Reading
    requires digit { Digit reading }
    requires room { vec_len word.old + begun reading ≤ vec_capacity word.old }
    ensures digit { Digit result }
    ensures comes { (cs : List ℕ) → comes_to result word.new.items cs ≡ comes_to reading word.old.items (c ∷ cs) }
    ensures len { 2 * vec_len word.new + begun result ≤ 2 * vec_len word.old + begun reading + 1 }
    ensures capacity { vec_capacity word.new ≡ vec_capacity word.old }
{
    if is_blank(c) {
        return reading;
    }
    let Some(value) = digit_value(c) else {
        return Reading::Wrong;
    };
    match reading {
        Reading::Whole => Reading::Half(value),
        Reading::Half(high) => {
            word.push_reserved(high * DIGIT_VALUES + value);
            Reading::Whole
        }
        Reading::Wrong => Reading::Wrong,
    }
}

// Whether a character is passed over.
#[tactic(auto, using(std::proofs::lemmas::Bool::Decides::nat_tests), unfolding(crate::specs::Hex::blank))]
fn is_blank(c: u8) -> bool
    ensures { result ≡ blank c }
{
    matches!(c, SPACE | TAB | CARRIAGE_RETURN)
}

// The value of a digit; None for any other character.
#[tactic(auto, using(crate::proofs::Digits::table_value, crate::proofs::Digits::table_none))]
fn digit_value(c: u8) -> Option<u8>
    ensures value { result ≡ digit_value c }
    ensures bound { IfSome result (λ v. v < digit_values) }
{
    let value = VALUES[usize::from(c)];
    if value < DIGIT_VALUES {
        Some(value)
    } else {
        None
    }
}

// The digit of a value, by hand: `char::from_digit` gives an option of a char, and is no plainer.
#[tactic(auto, using(std::proofs::lemmas::Bool::Decides::nat_tests), unfolding(crate::specs::Hex::digit))]
fn hex_digit(value: u8) -> u8
    requires { value < digit_values }
    ensures { result ≡ digit value }
{
    if value < LETTER_VALUE {
        b'0' + value
    } else {
        b'a' + (value - LETTER_VALUE)
    }
}

// How many bytes the line of a word has; None where no number says it.
fn line_size(word: &[u8]) -> Option<usize>
    ensures { MatchOption result (2 ^ 64 ≤ length (hex_line word.now)) (λ n. n ≡ length (hex_line word.now)) }
{
    word.len().checked_mul(DIGITS_PER_BYTE)?.checked_add(1)
}
