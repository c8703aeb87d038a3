ghost use Rattle.resizable_shared_memory.specs.Memory.{WritesChunk};

use super::DynamicMemory;
use crate::claim::Claim;
use crate::fault::ChunkWriteError;
use shared_memory::SegmentStore;

impl<A> DynamicMemory<A> {
    // Writes bytes into a chunk, from a place in it on.
    pub fn write<S: SegmentStore>(
        &self,
        store: &mut S,
        claim: Claim,
        from: u64,
        bytes: &[u8],
    ) -> Result<(), ChunkWriteError>
        ensures { WritesChunk claim.offset.0 claim.grant from bytes.now self.now (S.SegmentStore.means store.old) result (S.SegmentStore.means store.new) }
    {
        let (held, place) = self.tables.reach(claim).ok_or(ChunkWriteError::NotHeld)?;
        let size = held.size as u64;
        if from > size || bytes.len() as u64 > size - from {
            return Err(ChunkWriteError::OutsideChunk);
        }
        store.write(place.handle, claim.offset.offset() as u64 + from, bytes)?;
        Ok(())
    }
}
