use crate::call::Call;
use crate::words::{ReadError, read_call};
use std::alloc::{AllocError, Global};
use std::fmt;

// A line as it stands in the file.
#[derive(Clone, Copy, Debug)]
pub struct Line<'a> {
    pub number: u64,
    pub text: &'a str,
}

impl fmt::Display for Line<'_> {
    fn fmt<W: fmt::Write>(&self, f: &mut fmt::Formatter<W>) -> fmt::Result {
        write!(f, "line {}: {}", self.number, self.text)
    }
}

// What a line says.
#[derive(Debug, Drop)]
pub enum Content {
    // A new list starts, of that number.
    List(u64),
    Call(Call),
    // Words that are neither.
    Other,
}

impl Content {
    pub fn read(heap: Global, text: &str) -> Result<Content, AllocError> {
        if let Some(number) = read_list(text) {
            return Ok(Content::List(number));
        }
        match read_call(heap, text) {
            Ok(call) => Ok(Content::Call(call)),
            Err(ReadError::NoCall) => Ok(Content::Other),
            Err(ReadError::OutOfMemory(error)) => Err(error),
        }
    }
}

fn read_list(text: &str) -> Option<u64> {
    text.strip_prefix("list ")?.parse().ok()
}
