// Ported from src/shared_memory/mod.rs and src/shared_memory/common.rs of crate iceoryx2-cal 0.9.3; see NOTICE.
#![tactic(auto)]

ghost use Rattle.shared_memory.specs.Meaning.{Store, room, Empty, Named, Makes, Opens, Withdraws, Closes, Reads, Writes, size_at};
ghost use Rattle.std.specs.Prelude.{◌≡◌, MatchBool};

use fault::{AccessError, BadHandle, SharedMemoryCreateError, SharedMemoryOpenError};
use opened::Opened;
pub use pointer_offset::Denial;

pub mod fault;
pub mod frame_store;
pub mod name;
pub mod opened;
mod placing;
pub mod quota_store;
mod requests;
pub mod span_store;
mod table;
pub mod table_store;
#[cfg(test)]
mod tests;

// Keeps segments of memory. A segment stands under its handle as long as it has its name or a map.
pub trait SegmentStore {
    ghost means: { Self → Store };

    // Makes a segment of zeros, mapped once. Kinds of allocators have numbers, since anyone may add one.
    fn make(
        &mut self,
        name: &[u8],
        size: u64,
        allocator_id: u8,
    ) -> Result<Opened, SharedMemoryCreateError>
        ensures { Makes (means self.old) name.now size allocator_id result (means self.new) };

    // Maps a segment once more.
    fn open(&mut self, name: &[u8]) -> Result<Opened, SharedMemoryOpenError>
        ensures { Opens (means self.old) name.now result (means self.new) };

    // Takes a segment's name, and a map with it where there is one; whether it still stands.
    fn withdraw(&mut self, handle: u16) -> Result<bool, BadHandle>
        ensures { Withdraws (means self.old) handle result (means self.new) };

    // Takes a map of a segment; whether it still stands.
    fn close(&mut self, handle: u16) -> Result<bool, BadHandle>
        ensures { Closes (means self.old) handle result (means self.new) };

    fn read(&self, handle: u16, from: u64, buffer: &mut [u8]) -> Result<(), AccessError>
        ensures { Reads (means self.now) handle from buffer.old result buffer.new };

    fn write(&mut self, handle: u16, from: u64, bytes: &[u8]) -> Result<(), AccessError>
        ensures { Writes (means self.old) handle from bytes.now result (means self.new) };

    // Whether a segment of that size can be made.
    fn has_room(&self, size: u64) -> bool
        ensures { result ≡ room (means self.now) size };

    // Whether a segment has that name.
    fn is_named(&self, name: &[u8]) -> bool
        ensures { MatchBool result (Named (means self.now) name.now) (Named (means self.now) name.now → ⊥) };

    fn payload_size(&self, handle: u16) -> Option<u64>
        ensures { result ≡ size_at (means self.now) handle };

    // Whether no segment stands.
    fn is_empty(&self) -> bool
        ensures { MatchBool result (Empty (means self.now)) (Empty (means self.now) → ⊥) };
}
