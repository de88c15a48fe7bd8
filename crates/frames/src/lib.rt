// Words out of a stream of bytes and back: frames with a length, and hexadecimal lines.
#![tactic(auto)]

pub mod frame;
pub mod hex;
pub mod laws;

// What is taken from the start of a stream: a word as its form writes it, and the bytes behind it.
#[derive(Clone, Copy)]
pub struct Taken<'a> {
    pub word: &'a [u8],
    pub rest: &'a [u8],
}
