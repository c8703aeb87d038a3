use crate::byte_range::ByteRange;
use pointer_offset::{Denial, PointerOffset};
use shared_memory::fault::{
    AccessError, BadHandle, SharedMemoryCreateError, SharedMemoryOpenError, StoreError,
};
use shared_memory::opened::Opened;
use shm_allocator::layout::BadLayout;
use shm_allocator::{NotHeld, ShmAllocationError};
use std::alloc::{AllocError, AllocFailed};
use std::fmt;

// What came of a call.
pub type Outcome = Result<Done, NotDone>;

// What was done.
#[derive(Drop)]
pub enum Done {
    Pool {
        buckets: u32,
        size: u32,
    },
    Bump {
        payload: u32,
    },
    Store,
    Taken {
        at: PointerOffset,
        size: u32,
    },
    TakenBack {
        bytes: ByteRange,
        under_another_name: bool,
    },
    // A bump takes a return and keeps the bytes.
    Kept(ByteRange),
    Made(Opened),
    Opened(Opened),
    Stands(bool),
    Written,
    Shows(String),
    Room(bool),
}

// Why nothing was done.
#[derive(Clone, Copy)]
pub enum NotDone {
    BadLayout(BadLayout),
    Refused(ShmAllocationError),
    NotHeld(NotHeld),
    NotMade(SharedMemoryCreateError),
    NotOpened(SharedMemoryOpenError),
    BadHandle(BadHandle),
    NoAccess(AccessError),
    NoStore(StoreError),
    Impossible,
    NothingSetUp,
    OtherPart,
    NameInUse,
    UnknownName,
}

// What stops a call. Want of memory is no outcome, and ends the program.
#[derive(Clone, Copy)]
pub enum CallError {
    NotDone(NotDone),
    OutOfMemory(AllocError),
}

impl From<NotDone> for CallError {
    fn from(reason: NotDone) -> CallError {
        CallError::NotDone(reason)
    }
}

impl From<AllocError> for CallError {
    fn from(error: AllocError) -> CallError {
        CallError::OutOfMemory(error)
    }
}

impl<T: Drop> From<AllocFailed<T>> for CallError {
    fn from(error: AllocFailed<T>) -> CallError {
        CallError::OutOfMemory(AllocError::from(error))
    }
}

impl fmt::Display for Done {
    fn fmt<W: fmt::Write>(&self, f: &mut fmt::Formatter<W>) -> fmt::Result {
        match self {
            Done::Pool { buckets, size } => write!(
                f,
                "a pool of {buckets} buckets of {size} bytes"
            ),
            Done::Bump { payload } => write!(f, "a bump of {payload} bytes"),
            Done::Store => write!(f, "an empty store"),
            Done::Taken { at, size } => write!(
                f,
                "given: {size} bytes at value {}, {at:?}",
                at.as_value()
            ),
            Done::TakenBack {
                bytes,
                under_another_name: false,
            } => write!(f, "taken back: {bytes}"),
            Done::TakenBack { bytes, .. } => write!(
                f,
                "taken back: {bytes}, where another name's chunk lies: an allocator cannot tell the two apart"
            ),
            Done::Kept(bytes) => write!(
                f,
                "accepted: {bytes}, which a bump does not give out again"
            ),
            Done::Made(made) => write_mapped(f, "made", made),
            Done::Opened(opened) => write_mapped(f, "opened", opened),
            Done::Stands(true) => write!(f, "done: the segment still stands"),
            Done::Stands(false) => write!(f, "done: the segment ceased"),
            Done::Written => write!(f, "written"),
            Done::Shows(text) => write!(f, "shows: {text}"),
            Done::Room(true) => write!(f, "there is room"),
            Done::Room(false) => write!(f, "there is no room"),
        }
    }
}

impl fmt::Display for NotDone {
    fn fmt<W: fmt::Write>(&self, f: &mut fmt::Formatter<W>) -> fmt::Result {
        match self {
            NotDone::BadLayout(e) => write_denied(
                f,
                e.number(),
                "no size from 1 to 16777216 with a power of two up to 65536",
            ),
            NotDone::Refused(e) => write_named(f, e),
            NotDone::NotHeld(e) => write_denied(f, e.number(), "not held"),
            NotDone::NotMade(e) => write_named(f, e),
            NotDone::NotOpened(e) => write_named(f, e),
            NotDone::BadHandle(e) => write_denied(f, e.number(), "bad handle"),
            NotDone::NoAccess(e) => write_named(f, e),
            NotDone::NoStore(e) => match e.number() {
                Some(number) => write_denied(f, number, format_args!("{e:?}")),
                None => write!(f, "not done: {e:?}"),
            },
            NotDone::Impossible => write!(f, "not done: no such allocator can be set up"),
            NotDone::NothingSetUp => write!(f, "not done: nothing is set up"),
            NotDone::OtherPart => write!(f, "not done: this part of the list has no such call"),
            NotDone::NameInUse => write!(f, "not done: a chunk of that name is held"),
            NotDone::UnknownName => write!(f, "not done: that name was never given out"),
        }
    }
}

fn write_mapped<W: fmt::Write>(
    f: &mut fmt::Formatter<W>,
    call: &str,
    segment: &Opened,
) -> fmt::Result {
    write!(
        f,
        "{call}: handle {}, address {}",
        segment.handle, segment.address
    )
}

// A denial that its name explains.
fn write_named<W: fmt::Write, E: Denial + fmt::Debug>(
    f: &mut fmt::Formatter<W>,
    error: &E,
) -> fmt::Result {
    write_denied(f, error.number(), format_args!("{error:?}"))
}

fn write_denied<W: fmt::Write>(
    f: &mut fmt::Formatter<W>,
    number: u8,
    why: impl fmt::Display + Drop,
) -> fmt::Result {
    write!(f, "denied {number}: {why}")
}
