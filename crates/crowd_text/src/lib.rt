// What is printed of the words that a crowd takes, with the ideal box beside it on the same slots.
#![tactic(auto)]

mod tell;
mod telling;

pub use telling::Telling;
