ghost use Rattle.std.specs.Prelude.{◌^◌, ◌<◌, ◌≤◌, length};
ghost use Rattle.shared_memory.specs.Extents.{Paged, Within, Disjoint};
ghost use Rattle.shared_memory.specs.Slots.{extents_in};

use stored_name::StoredName;

mod access;
mod edits;
mod lookup;
mod making;
mod stored_name;

pub(crate) const MAX_HANDLES: usize = 320;

pub(crate) const PAGE: usize = 4096;

// A segment that stands: its payload are `size` bytes of the memory, from `start` on.
#[derive(Clone, Copy)]
pub(crate) struct Slot {
    name: Option<StoredName>,
    allocator_id: u8,
    start: usize,
    size: usize,
    maps: u16,
}

// Where a new segment is to stand and to lie.
#[derive(Clone, Copy)]
pub(crate) struct Place {
    pub(crate) handle: u16,
    pub(crate) start: usize,
}

// The segments of a store that owns their memory. Where a new one lies is said by `Placing`.
#[derive(Drop)]
pub(crate) struct SegmentTable {
    slots: Vec<Option<Slot>>,
    bytes: Vec<u8>,
    ghost few: { length slots.items ≤ 320 },
    ghost small: { length bytes.items < 2 ^ 63 },
    ghost paged: { Paged (extents_in slots.items) },
    ghost within: { Within (extents_in slots.items) (length bytes.items) },
    ghost disjoint: { Disjoint (extents_in slots.items) },
}
