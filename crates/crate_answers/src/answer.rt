use crate::reason::Reason;
use std::fmt;

// One answer to a call, the crate's or ours.
#[derive(Clone, Copy, PartialEq, Eq, Debug)]
pub enum Answer {
    // How many bytes the first segment has.
    Creation(Result<u64, Reason>),
    // A growth made a segment of so many bytes.
    Growth(u64),
    // The value of the start.
    Allocation(Result<u64, Reason>),
    // Ours alone: the allocator refuses and a growth is possible, so that only the store can deny it.
    LeftToStore,
    Return(Result<(), Reason>),
    BucketSize(u64),
}

impl Answer {
    // The crate's answer may be this one, where ours is `came`.
    pub fn agrees_with(self, came: Answer) -> bool {
        match (self, came) {
            (Answer::Allocation(Err(reason)), Answer::LeftToStore) => reason.is_of_store(),
            _ => self == came,
        }
    }
}

impl fmt::Display for Answer {
    fn fmt<W: fmt::Write>(&self, f: &mut fmt::Formatter<W>) -> fmt::Result {
        match *self {
            Answer::Creation(Ok(payload)) => write!(f, "created with {payload} bytes"),
            Answer::Creation(Err(reason)) => write!(f, "not created, denied {reason}"),
            Answer::Growth(payload) => write!(f, "a further segment of {payload} bytes"),
            Answer::Allocation(Ok(value)) => write!(f, "the start with value {value}"),
            Answer::Allocation(Err(reason)) => write!(f, "denied {reason}"),
            Answer::LeftToStore => write!(f, "a growth that only the store may deny"),
            Answer::Return(Ok(())) => write!(f, "returned"),
            Answer::Return(Err(reason)) => write!(f, "not returned, denied {reason}"),
            Answer::BucketSize(size) => write!(f, "buckets of {size} bytes"),
        }
    }
}
