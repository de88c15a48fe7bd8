// What the programs share: their arguments, their usage, and the loop that reads, serves and writes.
#![tactic(auto)]

mod args;
mod fault;
mod program;
mod usage;

pub use args::{Request, read_args};
pub use fault::CliError;
pub use program::{ended, report, run, serve_input};
pub use usage::{Usage, print_usage};
