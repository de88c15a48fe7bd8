// The real box as a program: words on standard input, their answers on standard output.
#![tactic(auto)]

use cioq::ENTRIES;
use cli::CliError;
use fabric::Fabric;
use lend::Reserve;
use std::process::ExitCode;

// Lends memory to a box, and runs the program over it.
fn real(rt: &HostRuntime) -> Result<(), CliError> {
    let mut reserve = Reserve::new(rt.alloc(), ENTRIES)?;
    let mut fabric = Fabric::new(reserve.loan()).ok_or(CliError::TooLittleLent)?;
    cli::run(rt, "box", &mut fabric)
}

fn main(rt: HostRuntime) -> ExitCode {
    let result = real(&rt);
    cli::ended(&rt, "box", result)
}
