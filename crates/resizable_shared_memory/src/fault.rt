// Ported from src/resizable_shared_memory/mod.rs of crate iceoryx2-cal 0.9.3; see NOTICE.

ghost use Rattle.resizable_shared_memory.specs.Faults.{allocation_number, creation_number, write_number, not_mapped_number};
ghost use Rattle.resizable_shared_memory.specs.declared.fault.ChunkWriteError.TheVariants as writing;
ghost use Rattle.resizable_shared_memory.specs.declared.fault.ResizableShmAllocationError.TheVariants as allocating;
ghost use Rattle.resizable_shared_memory.specs.declared.fault.ResizableShmCreateError.TheVariants as creating;
ghost use Rattle.std.specs.Prelude.{◌≡◌};

use pointer_offset::Denial;
use shared_memory::fault::{AccessError, SharedMemoryCreateError};
use shared_memory::name::BadName;
use shm_allocator::ShmAllocationError;
use shm_allocator::layout::BadLayout;

// Why a memory gave no chunk.
#[derive(Clone, Copy, PartialEq, Eq, Debug)]
pub enum ResizableShmAllocationError {
    BadLayout,
    LedgerFull,
    GrantsSpent,
    // No segment id is left to grow to.
    MaxReallocationsReached,
    ShmAllocationError(ShmAllocationError),
    SharedMemoryCreateError(SharedMemoryCreateError),
}

impl Denial for ResizableShmAllocationError {
    ghost number_of = { allocation_number };

    fn number(&self) -> u8 {
        match self {
            ResizableShmAllocationError::BadLayout => 1,
            ResizableShmAllocationError::LedgerFull => 12,
            ResizableShmAllocationError::GrantsSpent => 13,
            ResizableShmAllocationError::MaxReallocationsReached => 23,
            ResizableShmAllocationError::ShmAllocationError(error) => error.number(),
            ResizableShmAllocationError::SharedMemoryCreateError(error) => error.number(),
        }
    }
}

impl From<BadLayout> for ResizableShmAllocationError {
    ghost from_gives = { λ _ upper. upper ≡ allocating.BadLayout };

    fn from(_error: BadLayout) -> ResizableShmAllocationError {
        ResizableShmAllocationError::BadLayout
    }
}

impl From<ShmAllocationError> for ResizableShmAllocationError {
    ghost from_gives = { λ lower upper. upper ≡ allocating.ShmAllocationError lower };

    fn from(error: ShmAllocationError) -> ResizableShmAllocationError {
        ResizableShmAllocationError::ShmAllocationError(error)
    }
}

impl From<SharedMemoryCreateError> for ResizableShmAllocationError {
    ghost from_gives = { λ lower upper. upper ≡ allocating.SharedMemoryCreateError lower };

    fn from(error: SharedMemoryCreateError) -> ResizableShmAllocationError {
        ResizableShmAllocationError::SharedMemoryCreateError(error)
    }
}

// Why a memory was not created.
#[derive(Clone, Copy, PartialEq, Eq, Debug)]
pub enum ResizableShmCreateError {
    BadName,
    BadLayout,
    SharedMemoryCreateError(SharedMemoryCreateError),
}

impl Denial for ResizableShmCreateError {
    ghost number_of = { creation_number };

    fn number(&self) -> u8 {
        match self {
            ResizableShmCreateError::BadName => 2,
            ResizableShmCreateError::BadLayout => 1,
            ResizableShmCreateError::SharedMemoryCreateError(error) => error.number(),
        }
    }
}

impl From<BadName> for ResizableShmCreateError {
    ghost from_gives = { λ _ upper. upper ≡ creating.BadName };

    fn from(_error: BadName) -> ResizableShmCreateError {
        ResizableShmCreateError::BadName
    }
}

impl From<BadLayout> for ResizableShmCreateError {
    ghost from_gives = { λ _ upper. upper ≡ creating.BadLayout };

    fn from(_error: BadLayout) -> ResizableShmCreateError {
        ResizableShmCreateError::BadLayout
    }
}

impl From<SharedMemoryCreateError> for ResizableShmCreateError {
    ghost from_gives = { λ lower upper. upper ≡ creating.SharedMemoryCreateError lower };

    fn from(error: SharedMemoryCreateError) -> ResizableShmCreateError {
        ResizableShmCreateError::SharedMemoryCreateError(error)
    }
}

// Why nothing was written into a chunk.
#[derive(Clone, Copy, PartialEq, Eq, Debug)]
pub enum ChunkWriteError {
    NotHeld,
    OutsideChunk,
    AccessError(AccessError),
}

impl Denial for ChunkWriteError {
    ghost number_of = { write_number };

    fn number(&self) -> u8 {
        match self {
            ChunkWriteError::NotHeld => 11,
            ChunkWriteError::OutsideChunk => 4,
            ChunkWriteError::AccessError(error) => error.number(),
        }
    }
}

impl From<AccessError> for ChunkWriteError {
    ghost from_gives = { λ lower upper. upper ≡ writing.AccessError lower };

    fn from(error: AccessError) -> ChunkWriteError {
        ChunkWriteError::AccessError(error)
    }
}

// A segment that is not mapped.
#[derive(Clone, Copy, PartialEq, Eq, Debug)]
pub struct NotMapped;

impl Denial for NotMapped {
    ghost number_of = { not_mapped_number };

    fn number(&self) -> u8 {
        14
    }
}
