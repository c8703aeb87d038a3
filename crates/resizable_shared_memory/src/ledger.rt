ghost use Rattle.std.specs.Prelude.{map};
ghost use Rattle.resizable_shared_memory.specs.Entries.{entry, Rises};

use arrayvec::ArrayVec;
use pointer_offset::SegmentId;

mod entries;
mod search;

// A chunk that is held: its segment and start, the number of its grant and how many bytes were asked.
#[derive(Clone, Copy, Default)]
pub struct Held {
    pub segment: SegmentId,
    pub start: u32,
    pub grant: u64,
    pub size: u32,
}

// The chunks that are held, the oldest first.
#[derive(Drop)]
pub struct Ledger {
    entries: ArrayVec<Held, 1024>,
    ghost rising: { Rises (map entry entries.items) },
}
