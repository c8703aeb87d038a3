use pointer_offset::Denial;
use std::fmt;
use std::num::ParseIntError;
use std::str::FromStr;

// Why a call was denied. The lists have its number, which is the same in every layer.
#[derive(Clone, Copy, PartialEq, Eq, Debug)]
pub enum Reason {
    MaxReallocationsReached,
    AlreadyExists,
    SizeIsZero,
    InternalError,
    // Any other is only compared, so its number is enough.
    Other(u64),
}

impl Reason {
    pub fn of<E: Denial + Drop>(denial: E) -> Reason {
        Reason::from(u64::from(denial.number()))
    }

    // A store may deny a growth for it.
    pub fn is_of_store(self) -> bool {
        matches!(
            self,
            Reason::AlreadyExists | Reason::SizeIsZero | Reason::InternalError
        )
    }
}

impl From<u64> for Reason {
    fn from(number: u64) -> Reason {
        match number {
            23 => Reason::MaxReallocationsReached,
            24 => Reason::AlreadyExists,
            25 => Reason::SizeIsZero,
            26 => Reason::InternalError,
            _ => Reason::Other(number),
        }
    }
}

impl From<Reason> for u64 {
    fn from(reason: Reason) -> u64 {
        match reason {
            Reason::MaxReallocationsReached => 23,
            Reason::AlreadyExists => 24,
            Reason::SizeIsZero => 25,
            Reason::InternalError => 26,
            Reason::Other(number) => number,
        }
    }
}

impl FromStr for Reason {
    type Err = ParseIntError;

    fn from_str(word: &str) -> Result<Reason, ParseIntError> {
        word.parse::<u64>().map(Reason::from)
    }
}

impl fmt::Display for Reason {
    fn fmt<W: fmt::Write>(&self, f: &mut fmt::Formatter<W>) -> fmt::Result {
        write!(f, "{}", u64::from(*self))
    }
}
