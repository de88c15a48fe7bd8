// The ideal box as a program: words on standard input, their answers on standard output.
#![tactic(auto)]

use cli::CliError;
use ideal::ENTRIES;
use lend::Reserve;
use std::process::ExitCode;
use switch::best_box;

// Lends memory to a box, and runs the program over it. `box` does so over another box, made by another call: what a function of both
// would take are this box, its size and its name, and it would do no more than these lines.
fn best(rt: &HostRuntime) -> Result<(), CliError> {
    let mut reserve = Reserve::new(rt.alloc(), ENTRIES)?;
    let mut ideal = best_box(reserve.loan()).ok_or(CliError::TooLittleLent)?;
    cli::run(rt, "best", &mut ideal)
}

fn main(rt: HostRuntime) -> ExitCode {
    let result = best(&rt);
    cli::ended(&rt, "best", result)
}
