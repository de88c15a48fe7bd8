// Why a program ends with status 1.
use std::alloc::AllocError;
use std::{fmt, io};

#[derive(Drop)]
pub enum CliError {
    UnknownArgument(String),
    BadArguments(io::Error),
    Input(io::Error),
    Output(io::Error),
    OutOfMemory,
    TooLittleLent,
}

impl From<AllocError> for CliError {
    fn from(_error: AllocError) -> CliError {
        CliError::OutOfMemory
    }
}

impl fmt::Display for CliError {
    fn fmt<W: fmt::Write>(&self, f: &mut fmt::Formatter<W>) -> fmt::Result {
        match self {
            CliError::UnknownArgument(arg) => write!(f, "unknown argument '{arg}'; try --help"),
            CliError::BadArguments(e) => write!(f, "the arguments can't be read: {e}"),
            CliError::Input(e) => write!(f, "the input can't be read: {e}"),
            CliError::Output(e) => write!(f, "the output can't be written: {e}"),
            CliError::OutOfMemory => write!(f, "out of memory"),
            CliError::TooLittleLent => write!(f, "too little memory is lent"),
        }
    }
}
