use crate::answer::Answer;
use std::alloc::AllocError;
use std::fmt;

// What came of comparing a call, where nothing is wrong.
#[derive(Clone, Copy, PartialEq, Eq, Debug)]
pub enum Finding {
    Same,
    // The allocators alone cannot tell.
    PassedOver,
}

// Where the crate's answer is not ours.
#[derive(Clone, Copy, Debug)]
pub struct Difference {
    pub recorded: Answer,
    pub came: Answer,
}

impl fmt::Display for Difference {
    fn fmt<W: fmt::Write>(&self, f: &mut fmt::Formatter<W>) -> fmt::Result {
        write!(f, "recorded: {}\n    came: {}", self.recorded, self.came)
    }
}

// Why nothing is known of what follows in a list.
#[derive(Clone, Copy, Debug)]
pub enum Trouble {
    Differs(Difference),
    // No list may have this call here.
    Misplaced,
    OutOfMemory(AllocError),
}

impl From<AllocError> for Trouble {
    fn from(error: AllocError) -> Trouble {
        Trouble::OutOfMemory(error)
    }
}
