// Words: the bytes that a box is given and the bytes that it answers.
#![tactic(auto)]

pub mod answer;
pub mod fault;
pub mod read;
pub mod spelling;

pub use answer::Answer;
pub use crossbox::BODY;
pub use fault::Fault;
pub use read::{Entry, Kind, body_of, judge_lines, read_entry, read_settings};
pub use spelling::{answers_are_read, lines_are_read_as_spelled, written_lines_are_read};

// The most lines in, and the most lines out.
pub const MOST_LINES: usize = 32;
// The byte that stands for no cell.
pub const NONE: u8 = 255;
// The kinds of words, by their first byte.
pub const SETTINGS: u8 = 1;

pub const SLOT: u8 = 2;

pub const ANSWER: u8 = 3;

pub const CHOICE: u8 = 4;

pub const REFUSAL: u8 = 5;
// A departure: the cell's input, its slot and its body.
pub const DEPARTURE_BYTES: usize = 69;
// The longest answer: its kind, 32 departures, and a flag for each of 32 inputs.
pub const ANSWER_BYTES: usize = 2241;
// How many slots a box serves after its settings: a slot's number has 32 bits.
pub const SLOT_LIMIT: u64 = 4294967296;
