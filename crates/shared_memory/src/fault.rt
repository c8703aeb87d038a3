// Ported from src/shared_memory/mod.rs of crate iceoryx2-cal 0.9.3; see NOTICE.

ghost use Rattle.shared_memory.specs.Faults.{store_number, not_empty_number};
ghost use Rattle.shared_memory.specs.Meaning.{create_number, open_number, access_number, handle_number};
ghost use Rattle.shared_memory.specs.declared.fault.StoreError.TheVariants.{OutOfMemory};
ghost use Rattle.std.specs.Prelude.{◌≡◌};

use pointer_offset::Denial;
use std::alloc::AllocError;

// Why a segment was not made.
#[derive(Clone, Copy, PartialEq, Eq, Debug)]
pub enum SharedMemoryCreateError {
    BadName,
    SizeIsZero,
    AlreadyExists,
    // There is no room for it.
    InternalError,
}

impl Denial for SharedMemoryCreateError {
    ghost number_of = { create_number };

    fn number(&self) -> u8 {
        match self {
            SharedMemoryCreateError::BadName => 2,
            SharedMemoryCreateError::SizeIsZero => 25,
            SharedMemoryCreateError::AlreadyExists => 24,
            SharedMemoryCreateError::InternalError => 26,
        }
    }
}

// Why a segment was not opened.
#[derive(Clone, Copy, PartialEq, Eq, Debug)]
pub enum SharedMemoryOpenError {
    BadName,
    DoesNotExist,
    // It is mapped as often as its maps can be counted.
    InternalError,
}

impl Denial for SharedMemoryOpenError {
    ghost number_of = { open_number };

    fn number(&self) -> u8 {
        match self {
            SharedMemoryOpenError::BadName => 2,
            SharedMemoryOpenError::DoesNotExist => 27,
            SharedMemoryOpenError::InternalError => 29,
        }
    }
}

// No segment stands under the handle, or it has no name or no map to take away.
#[derive(Clone, Copy, PartialEq, Eq, Debug)]
pub struct BadHandle;

impl Denial for BadHandle {
    ghost number_of = { handle_number };

    fn number(&self) -> u8 {
        17
    }
}

// Why no byte was read or written.
#[derive(Clone, Copy, PartialEq, Eq, Debug)]
pub enum AccessError {
    BadHandle,
    OutsidePayload,
}

impl Denial for AccessError {
    ghost number_of = { access_number };

    fn number(&self) -> u8 {
        match self {
            AccessError::BadHandle => 17,
            AccessError::OutsidePayload => 5,
        }
    }
}

// Why a store that owns its memory was not made.
#[derive(Clone, Copy, PartialEq, Eq, Debug)]
pub enum StoreError {
    // No store has that shape.
    BadStore,
    OutOfMemory,
}

impl StoreError {
    // Want of memory is no denial, and has no number.
    pub fn number(&self) -> Option<u8>
        ensures { result ≡ store_number self.now }
    {
        match self {
            StoreError::BadStore => Some(6),
            StoreError::OutOfMemory => None,
        }
    }
}

impl From<AllocError> for StoreError {
    ghost from_gives = { λ _ e. e ≡ OutOfMemory };

    fn from(_error: AllocError) -> StoreError {
        StoreError::OutOfMemory
    }
}

// A store that is not empty, handed back by the one that was to be built on it.
#[derive(Drop)]
pub struct NotEmpty<S> {
    pub store: S,
}

impl<S> Denial for NotEmpty<S> {
    ghost number_of = { not_empty_number };

    fn number(&self) -> u8 {
        6
    }
}
