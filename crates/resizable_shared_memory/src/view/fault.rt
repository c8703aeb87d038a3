ghost use Rattle.resizable_shared_memory.specs.ViewFaults.{open_for_number, view_open_number, register_number, unregister_number, viewer_closed_number, close_number};
ghost use Rattle.resizable_shared_memory.specs.declared.view.fault.OpenForError.TheVariants as opening_for;
ghost use Rattle.resizable_shared_memory.specs.declared.view.fault.RegisterError.TheVariants as registering;
ghost use Rattle.resizable_shared_memory.specs.declared.view.fault.ViewOpenError.TheVariants as opening;
ghost use Rattle.std.specs.Prelude.{◌≡◌};

use super::ClosingMark;
use pointer_offset::Denial;
use shared_memory::fault::SharedMemoryOpenError;
use shared_memory::name::BadName;

// Why a segment was not opened for an allocator.
pub(super) enum OpenForError {
    // The segment was made for another kind of allocator.
    WrongAllocatorSelected,
    SharedMemoryOpenError(SharedMemoryOpenError),
}

impl From<SharedMemoryOpenError> for OpenForError {
    ghost from_gives = { λ lower upper. upper ≡ opening_for.SharedMemoryOpenError lower };

    fn from(error: SharedMemoryOpenError) -> OpenForError {
        OpenForError::SharedMemoryOpenError(error)
    }
}

// Why a viewer was not opened.
#[derive(Clone, Copy, PartialEq, Eq, Debug)]
pub enum ViewOpenError {
    BadName,
    // The memory is of another kind of allocator.
    WrongAllocatorSelected,
    SharedMemoryOpenError(SharedMemoryOpenError),
}

impl Denial for ViewOpenError {
    ghost number_of = { view_open_number };

    fn number(&self) -> u8 {
        match self {
            ViewOpenError::BadName => 2,
            ViewOpenError::WrongAllocatorSelected => 28,
            ViewOpenError::SharedMemoryOpenError(error) => error.number(),
        }
    }
}

impl From<BadName> for ViewOpenError {
    ghost from_gives = { λ _ upper. upper ≡ opening.BadName };

    fn from(_error: BadName) -> ViewOpenError {
        ViewOpenError::BadName
    }
}

impl From<SharedMemoryOpenError> for ViewOpenError {
    ghost from_gives = { λ lower upper. upper ≡ opening.SharedMemoryOpenError lower };

    fn from(error: SharedMemoryOpenError) -> ViewOpenError {
        ViewOpenError::SharedMemoryOpenError(error)
    }
}

impl From<OpenForError> for ViewOpenError {
    ghost from_gives = { λ lower upper. view_open_number upper ≡ open_for_number lower };

    fn from(error: OpenForError) -> ViewOpenError {
        match error {
            OpenForError::WrongAllocatorSelected => ViewOpenError::WrongAllocatorSelected,
            OpenForError::SharedMemoryOpenError(error) => ViewOpenError::from(error),
        }
    }
}

// Why nothing was registered.
#[derive(Clone, Copy, PartialEq, Eq, Debug)]
pub enum RegisterError {
    ViewerClosed,
    RegistrationsFull,
    // The segment was made for another kind of allocator.
    WrongAllocatorSelected,
    SharedMemoryOpenError(SharedMemoryOpenError),
}

impl Denial for RegisterError {
    ghost number_of = { register_number };

    fn number(&self) -> u8 {
        match self {
            RegisterError::ViewerClosed => 18,
            RegisterError::RegistrationsFull => 16,
            RegisterError::WrongAllocatorSelected => 28,
            RegisterError::SharedMemoryOpenError(error) => error.number(),
        }
    }
}

impl From<SharedMemoryOpenError> for RegisterError {
    ghost from_gives = { λ lower upper. upper ≡ registering.SharedMemoryOpenError lower };

    fn from(error: SharedMemoryOpenError) -> RegisterError {
        RegisterError::SharedMemoryOpenError(error)
    }
}

impl From<OpenForError> for RegisterError {
    ghost from_gives = { λ lower upper. register_number upper ≡ open_for_number lower };

    fn from(error: OpenForError) -> RegisterError {
        match error {
            OpenForError::WrongAllocatorSelected => RegisterError::WrongAllocatorSelected,
            OpenForError::SharedMemoryOpenError(error) => RegisterError::from(error),
        }
    }
}

// Why no registration was undone.
#[derive(Clone, Copy, PartialEq, Eq, Debug)]
pub enum UnregisterError {
    ViewerClosed,
    NotMapped,
    NotRegistered,
}

impl Denial for UnregisterError {
    ghost number_of = { unregister_number };

    fn number(&self) -> u8 {
        match self {
            UnregisterError::ViewerClosed => 18,
            UnregisterError::NotMapped => 14,
            UnregisterError::NotRegistered => 15,
        }
    }
}

// A viewer that was closed.
#[derive(Clone, Copy, PartialEq, Eq, Debug)]
pub struct ViewerClosed;

impl Denial for ViewerClosed {
    ghost number_of = { viewer_closed_number };

    fn number(&self) -> u8 {
        18
    }
}

// A viewer that was closed before: the mark was not spent on it, and comes back.
pub struct ViewCloseError {
    pub mark: ClosingMark,
}

impl Denial for ViewCloseError {
    ghost number_of = { close_number };

    fn number(&self) -> u8 {
        18
    }
}
