// A switch serves a stream of words: frames, or lines of hexadecimal digits.
#![tactic(auto)]

mod form;
mod laws;
mod server;
mod stream;
mod whole;

pub use form::Form;
pub use laws::served_in_turn;
pub use server::Server;
pub use stream::{Service, Stream, answers_by_pieces};
pub use whole::{ServeError, answers, answers_of};
