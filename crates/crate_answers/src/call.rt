use crate::reason::Reason;
use crate::words::ReadError;
use shm_allocator::AllocationStrategy;
use shm_allocator::layout::Layout;
use std::str::FromStr;

// Which allocator a memory has.
#[derive(Clone, Copy, PartialEq, Eq, Debug)]
pub enum Kind {
    Pool,
    Bump,
}

impl FromStr for Kind {
    type Err = ReadError;

    fn from_str(word: &str) -> Result<Kind, ReadError> {
        match word {
            "pool" => Ok(Kind::Pool),
            "bump" => Ok(Kind::Bump),
            _ => Err(ReadError::NoCall),
        }
    }
}

// The memory that a list creates, with the crate's answer. Its store is not looked at yet.
#[derive(Clone, Copy, Debug)]
pub struct Creation {
    pub kind: Kind,
    pub strategy: AllocationStrategy,
    pub layout: Layout,
    pub chunks: u64,
    // How many bytes the first segment has.
    pub recorded: Result<u64, Reason>,
}

// A call with the crate's answer to it.
#[derive(Debug, Drop)]
pub enum Call {
    Create(Creation),
    Allocate {
        layout: Layout,
        // The payload of each segment that the call made.
        made: Vec<u64>,
        // The value of the start.
        recorded: Result<u64, Reason>,
    },
    Return {
        chunk: usize,
    },
    BucketSize {
        chunk: usize,
        recorded: u64,
    },
    OpenViewer,
    // A call of a viewer that was opened.
    View,
    End,
}
