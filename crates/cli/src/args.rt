// What the arguments of a program ask for.
use crate::fault::CliError;
use serve::Form;
use std::env;

// What a program is asked to do. No `Option<Form>`: `None` would have to mean help.
#[derive(Clone, Copy)]
pub enum Request {
    Help,
    Serve(Form),
}

// Reads the arguments behind the program's own name.
pub fn read_args(rt: &HostRuntime) -> Result<Request, CliError> {
    let mut request = Request::Serve(Form::Frames);
    for arg in env::args(rt).map_err(CliError::BadArguments)?.skip(1) {
        match arg.as_str() {
            "--help" => return Ok(Request::Help),
            "--hex" => request = Request::Serve(Form::Lines),
            _ => return Err(CliError::UnknownArgument(arg)),
        }
    }
    Ok(request)
}
