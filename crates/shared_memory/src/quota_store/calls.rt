ghost use Rattle.std.specs.Prelude.{◌≡◌, ◌+◌, ◌*◌, ◌^◌, ◌≤◌, nat_le};
ghost use Rattle.shared_memory.specs.Quotas.{used, limited, QuotaStart};

use super::QuotaStore;
use crate::SegmentStore;
use crate::fault::{
    AccessError, BadHandle, NotEmpty, SharedMemoryCreateError, SharedMemoryOpenError,
};
use crate::opened::Opened;
use crate::requests::check_request;
use crate::table::MAX_HANDLES;

impl<S: SegmentStore> QuotaStore<S> {
    // A store that is not empty is handed back.
    pub fn new(below: S, quota: u64) -> Result<QuotaStore<S>, NotEmpty<S>>
        ensures { QuotaStart S.means below quota result }
    {
        if !below.is_empty() {
            return Err(NotEmpty { store: below });
        }
        Ok(QuotaStore { below, quota })
    }

    // The payload sizes that stand, together.
    fn used(&self) -> u128
        ensures value { result ≡ used (S.means self.now.below) }
        ensures bound { result ≤ 320 * 2 ^ 64 }
    {
        // A loop: the proof for a chain that sums did not close.
        let mut sum: u128 = 0;
        for handle in 0..MAX_HANDLES as u16 {
            let size = self.below.payload_size(handle).unwrap_or(0);
            sum += size as u128;
        }
        sum
    }

    // Whether a payload of that size would stay within the quota.
    fn is_within(&self, size: u64) -> bool
        ensures { result ≡ nat_le (used (S.means self.now.below) + size) self.now.quota }
    {
        self.used() + size as u128 <= self.quota as u128
    }
}

impl<S: SegmentStore> SegmentStore for QuotaStore<S> {
    ghost means = { λ t. limited (S.SegmentStore.means t.below) t.quota };

    fn make(
        &mut self,
        name: &[u8],
        size: u64,
        allocator_id: u8,
    ) -> Result<Opened, SharedMemoryCreateError> {
        if self.is_within(size) {
            return self.below.make(name, size, allocator_id);
        }
        check_request(name, size, self.below.is_named(name))?;
        Err(SharedMemoryCreateError::InternalError)
    }

    fn open(&mut self, name: &[u8]) -> Result<Opened, SharedMemoryOpenError> {
        self.below.open(name)
    }

    fn withdraw(&mut self, handle: u16) -> Result<bool, BadHandle> {
        self.below.withdraw(handle)
    }

    fn close(&mut self, handle: u16) -> Result<bool, BadHandle> {
        self.below.close(handle)
    }

    fn read(&self, handle: u16, from: u64, buffer: &mut [u8]) -> Result<(), AccessError> {
        self.below.read(handle, from, buffer)
    }

    fn write(&mut self, handle: u16, from: u64, bytes: &[u8]) -> Result<(), AccessError> {
        self.below.write(handle, from, bytes)
    }

    fn has_room(&self, size: u64) -> bool {
        self.below.has_room(size) && self.is_within(size)
    }

    fn is_named(&self, name: &[u8]) -> bool {
        self.below.is_named(name)
    }

    fn payload_size(&self, handle: u16) -> Option<u64> {
        self.below.payload_size(handle)
    }

    fn is_empty(&self) -> bool {
        self.below.is_empty()
    }
}
