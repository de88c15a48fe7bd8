// How a program is used.
use crate::fault::CliError;
use std::fmt;

// What programs differ in: the name, what comes in and what comes out, and what `--hex` means.
#[derive(Clone, Copy)]
pub struct Usage<'a> {
    pub name: &'a str,
    pub takes: &'a str,
    pub hex: &'a str,
}

impl fmt::Display for Usage<'_> {
    fn fmt<W: fmt::Write>(&self, f: &mut fmt::Formatter<W>) -> fmt::Result {
        writeln!(f, "usage: {} [--hex] [--help]\n", self.name)?;
        writeln!(f, "{}\n", self.takes)?;
        writeln!(f, "  --hex   {}", self.hex)?;
        write!(f, "  --help  this text")
    }
}

// Says how to use a program.
pub fn print_usage(rt: &HostRuntime, usage: Usage<'_>) -> Result<(), CliError> {
    println!(rt; "{usage}").map_err(CliError::Output)
}
