ghost use Rattle.shared_memory.specs.Tables.{under};

use super::TableStore;
use crate::SegmentStore;
use crate::fault::{AccessError, BadHandle, SharedMemoryCreateError, SharedMemoryOpenError};
use crate::opened::Opened;
use crate::placing::Placing;
use crate::requests::check_request;

impl<P: Placing> SegmentStore for TableStore<P> {
    ghost means = { λ s. under (P.rule s.placing) s.table };

    fn make(
        &mut self,
        name: &[u8],
        size: u64,
        allocator_id: u8,
    ) -> Result<Opened, SharedMemoryCreateError> {
        check_request(name, size, self.table.is_named(name))?;
        let place = self
            .placing
            .place(&self.table, size)
            .ok_or(SharedMemoryCreateError::InternalError)?;
        Ok(self.table.occupy(place, name, size as usize, allocator_id))
    }

    fn open(&mut self, name: &[u8]) -> Result<Opened, SharedMemoryOpenError> {
        self.table.open(name)
    }

    fn withdraw(&mut self, handle: u16) -> Result<bool, BadHandle> {
        self.table.withdraw(handle)
    }

    fn close(&mut self, handle: u16) -> Result<bool, BadHandle> {
        self.table.close(handle)
    }

    fn read(&self, handle: u16, from: u64, buffer: &mut [u8]) -> Result<(), AccessError> {
        self.table.read(handle, from, buffer)
    }

    fn write(&mut self, handle: u16, from: u64, bytes: &[u8]) -> Result<(), AccessError> {
        self.table.write(handle, from, bytes)
    }

    fn has_room(&self, size: u64) -> bool {
        self.placing.place(&self.table, size).is_some()
    }

    fn is_named(&self, name: &[u8]) -> bool {
        self.table.is_named(name)
    }

    fn payload_size(&self, handle: u16) -> Option<u64> {
        self.table.payload_size(handle)
    }

    fn is_empty(&self) -> bool {
        self.table.is_empty()
    }
}
