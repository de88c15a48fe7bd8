// The loop of a program: reads large pieces, serves what has come, and writes what comes of it before it waits for more.
ghost use Rattle.std.specs.Prelude.{◌≡◌, ◌≤◌, cond, is_ok, length, IfOk};
ghost use Rattle.std.specs.Process.{exit_status};
ghost use Rattle.switch.specs.Respond.{Status};

use crate::args::{Request, read_args};
use crate::fault::CliError;
use crate::usage::{Usage, print_usage};
use serve::{Server, Service, Stream};
use std::io::Read;
use std::process::ExitCode;
use switch::Switch;

// How many bytes are read at once.
const PIECE: usize = 65536;

// Reads what has come; no byte at the end of the input.
fn read_piece(rt: &HostRuntime, piece: &mut [u8]) -> Result<usize, CliError>
    ensures { IfOk result (λ count. count ≤ length piece.new) }
{
    rt.stdin().read(piece).map_err(CliError::Input)
}

// Writes what a service has written, and lets go of it.
fn write_output<S: Service>(rt: &HostRuntime, service: &mut S) -> Result<(), CliError> {
    if service.output().is_empty() {
        return Ok(());
    }
    let written = rt.write_all(service.output());
    service.clear();
    written.map_err(CliError::Output)
}

// Serves the whole input.
pub fn serve_input<S: Service + Drop>(rt: &HostRuntime, service: S) -> Result<(), CliError> {
    let heap = rt.alloc();
    let mut piece = vec![in heap; 0u8; PIECE]?;
    let mut stream = Stream {
        service,
        pending: Vec::new(heap),
    };
    // A count that no input reaches: a loop with no end would want a word in HANDLES.
    for _ in 0..u64::MAX {
        let count = read_piece(rt, &mut piece)?;
        if count == 0 {
            break;
        }
        stream.take(&piece[..count])?;
        write_output(rt, &mut stream.service)?;
    }
    stream.end()?;
    write_output(rt, &mut stream.service)
}

// Does what the arguments ask for.
pub fn run<S: Switch>(rt: &HostRuntime, name: &str, switch: &mut S) -> Result<(), CliError>
    requires { (st : Status) × S.Switch.shows switch.old st }
{
    match read_args(rt)? {
        Request::Help => print_usage(
            rt,
            Usage {
                name,
                takes: "Takes words on standard input and writes their answers to standard output.\nEach is preceded by its length in two bytes, the high byte first.",
                hex: "one word to a line in hexadecimal digits, answers likewise",
            },
        ),
        Request::Serve(form) => serve_input(rt, Server::new(switch, form, rt.alloc())),
    }
}

// Says on standard error what went wrong, if anything did, and hands it on.
pub fn report(rt: &HostRuntime, name: &str, res: Result<(), CliError>) -> Result<(), CliError>
    ensures { result ≡ res }
{
    if let Err(e) = &res {
        let _ = eprintln!(rt; "{name}: {e}");
    }
    res
}

// Says what went wrong, if anything did, and gives the status to end with.
pub fn ended(rt: &HostRuntime, name: &str, res: Result<(), CliError>) -> ExitCode
    ensures { exit_status result ≡ cond (is_ok res) 0 1 }
{
    match report(rt, name, res) {
        Ok(()) => ExitCode::SUCCESS,
        Err(_) => ExitCode::FAILURE,
    }
}
