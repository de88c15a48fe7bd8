// A crowd as a program: slots and choices on standard input, and what happens in lines of text on standard output.
#![tactic(auto)]

use cli::{CliError, Request, Usage};
use crowd::Crowd;
use crowd_text::Telling;
use lend::Reserve;
use serve::Form;
use std::process::ExitCode;
use switch::best_box;

// How to use the program.
const USAGE: Usage<'static> = Usage {
    name: "crowd",
    takes: "Takes settings, slots and choices, two after each slot, on standard input and prints what happens, line by line.\nEach word is preceded by its length in two bytes, the high byte first.",
    hex: "one word to a line in hexadecimal digits",
};

// Lends memory to both boxes, and runs them side by side.
fn run(rt: &HostRuntime, form: Form) -> Result<(), CliError> {
    let heap = rt.alloc();
    let mut reserve = Reserve::new(heap, cioq::ENTRIES)?;
    let mut beside = Reserve::new(heap, ideal::ENTRIES)?;
    let mut crowd = Crowd::new(reserve.loan()).ok_or(CliError::TooLittleLent)?;
    let mut ideal = best_box(beside.loan()).ok_or(CliError::TooLittleLent)?;
    cli::serve_input(rt, Telling::new(&mut crowd, &mut ideal, form, heap))
}

// Does what the arguments ask for.
fn serve_request(rt: &HostRuntime) -> Result<(), CliError> {
    match cli::read_args(rt)? {
        Request::Help => cli::print_usage(rt, USAGE),
        Request::Serve(form) => run(rt, form),
    }
}

fn main(rt: HostRuntime) -> ExitCode {
    let result = serve_request(&rt);
    cli::ended(&rt, "crowd", result)
}
