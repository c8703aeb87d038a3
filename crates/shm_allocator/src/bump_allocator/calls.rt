// Ported from src/shm_allocator/bump_allocator.rs of crate iceoryx2-cal 0.9.3; see NOTICE.

ghost use Rattle.shm_allocator.specs.Bump.{bump};
ghost use Rattle.std.specs.Prelude.{◌≡◌};
ghost use Rattle.shm_allocator.specs.Bumps.{bump_lawful};

use super::{BumpAllocator, Config};
use crate::layout::{ValidLayout, round_up};
use crate::{AllocationStrategy, NotHeld, SharedMemorySetupHint, ShmAllocationError, ShmAllocator};

const ID: u8 = 1;

const MAX_ALIGNMENT: u32 = 8;

impl BumpAllocator {
    pub fn total_space(&self) -> u32
        ensures { result ≡ self.now.payload }
    {
        self.payload
    }
}

impl ShmAllocator for BumpAllocator {
    type Configuration = Config;

    ghost means = { bump };

    ghost lawful = { bump_lawful };

    fn unique_id() -> u8 {
        ID
    }

    fn initial_setup_hint(layout: ValidLayout, chunks: u64) -> SharedMemorySetupHint<Config> {
        SharedMemorySetupHint {
            payload_size: layout.rounded().size() as u128 * chunks as u128,
            config: Config {},
        }
    }

    fn resize_hint(
        &self,
        layout: ValidLayout,
        strategy: AllocationStrategy,
    ) -> SharedMemorySetupHint<Config> {
        let present = self.payload as u64;
        let payload = if strategy.grows() && layout.size() >= self.payload - self.mark {
            strategy.raised(present + layout.size() as u64)
        } else {
            present
        };
        SharedMemorySetupHint {
            payload_size: payload as u128,
            config: Config {},
        }
    }

    fn bucket(&self) -> u32 {
        0
    }

    fn can_set_up(_config: Config, _payload: u32) -> bool {
        true
    }

    fn set_up(_config: Config, payload: u32) -> BumpAllocator {
        BumpAllocator { payload, mark: 0 }
    }

    fn allocate(&mut self, layout: ValidLayout) -> Result<u32, ShmAllocationError> {
        if layout.align() > MAX_ALIGNMENT {
            return Err(ShmAllocationError::ExceedsMaxSupportedAlignment);
        }
        let start = round_up(self.mark as u64, layout.align() as u64);
        let end = start + layout.size() as u64;
        if end > self.payload as u64 {
            return Err(ShmAllocationError::OutOfMemory);
        }
        self.mark = end as u32;
        Ok(start as u32)
    }

    // Moves nothing: what lies below the mark stays taken. No byte at all is always below it.
    fn deallocate(&mut self, at: u32, size: u32) -> Result<(), NotHeld> {
        if size == 0 {
            return Ok(());
        }
        if at as u64 + size as u64 > self.mark as u64 {
            return Err(NotHeld);
        }
        Ok(())
    }
}
