use std::alloc::AllocError;
use std::error::Error;
use std::{fmt, io};

// What stops the program. A type of its own, since each line has such a result, and `anyhow`'s takes three times the bytes.
#[derive(Clone, Copy, Debug)]
pub enum Stop {
    Unprinted(io::Error),
    OutOfMemory(AllocError),
}

impl Error for Stop {}

impl fmt::Display for Stop {
    fn fmt<W: fmt::Write>(&self, f: &mut fmt::Formatter<W>) -> fmt::Result {
        match self {
            Stop::Unprinted(error) => error.fmt(f),
            Stop::OutOfMemory(error) => error.fmt(f),
        }
    }
}

impl From<io::Error> for Stop {
    fn from(error: io::Error) -> Stop {
        Stop::Unprinted(error)
    }
}

impl From<AllocError> for Stop {
    fn from(error: AllocError) -> Stop {
        Stop::OutOfMemory(error)
    }
}
