// Ported from src/shm_allocator/pool_allocator.rs of crate iceoryx2-cal 0.9.3; see NOTICE.

ghost use Rattle.shm_allocator.specs.Numbers.{Valid};
ghost use Rattle.shm_allocator.specs.Pool.{pool, pool_possible, bucket_size_of, hint_size, hint_align, hint_count, PoolFresh, PoolSetUp};
ghost use Rattle.std.specs.Prelude.{◌≡◌, true, false, MatchOption};
ghost use Rattle.shm_allocator.specs.Pools.{pool_lawful};

use super::{Config, PoolAllocator};
use crate::buckets::{Buckets, MAX_BUCKETS};
use crate::layout::{Layout, ValidLayout};
use crate::{
    AllocationStrategy, BucketAllocator, NotHeld, SharedMemorySetupHint, ShmAllocationError,
    ShmAllocator,
};

const ID: u8 = 0;

const MAX_ALIGNMENT: u32 = 4096;

impl PoolAllocator {
    pub fn number_of_buckets(&self) -> u32
        ensures { result ≡ self.now.buckets.count }
    {
        self.buckets.count()
    }

    // The layout of the buckets of the hint.
    fn hint_bucket(&self, layout: ValidLayout, strategy: AllocationStrategy) -> ValidLayout
        ensures { (result.size ≡ hint_size self.now layout strategy) × (result.align ≡ hint_align self.now layout strategy) }
    {
        let suffices = layout.size() <= self.layout.size() && layout.align() <= self.layout.align();
        if strategy.grows() && !suffices {
            self.layout.grown(layout, strategy)
        } else {
            self.layout
        }
    }

    // How many buckets the hint has.
    fn hint_count(&self, strategy: AllocationStrategy) -> u64
        ensures { result ≡ hint_count self.now strategy }
    {
        let count = self.buckets.count() as u64;
        if strategy.grows() && self.buckets.is_full() {
            return strategy.raised(count + 1);
        }
        count
    }
}

// The layout of a bucket, its size rounded up, where the setup is possible.
fn bucket_of(config: Config, payload: u32) -> Option<ValidLayout>
    ensures { MatchOption result (pool_possible config payload ≡ false) (λ b. (pool_possible config payload ≡ true) × (b.size ≡ bucket_size_of config) × (b.align ≡ config.bucket_layout.align)) }
{
    let bucket = ValidLayout::try_from(config.bucket_layout).ok()?.rounded();
    if bucket.align() > MAX_ALIGNMENT || payload / bucket.size() > MAX_BUCKETS as u32 {
        return None;
    }
    Some(bucket)
}

impl ShmAllocator for PoolAllocator {
    type Configuration = Config;

    ghost means = { pool };

    ghost lawful = { pool_lawful };

    fn unique_id() -> u8 {
        ID
    }

    fn initial_setup_hint(layout: ValidLayout, chunks: u64) -> SharedMemorySetupHint<Config> {
        SharedMemorySetupHint {
            payload_size: layout.rounded().size() as u128 * chunks as u128,
            config: Config {
                bucket_layout: Layout::from(layout),
            },
        }
    }

    fn resize_hint(
        &self,
        layout: ValidLayout,
        strategy: AllocationStrategy,
    ) -> SharedMemorySetupHint<Config>
        ensures value { result ≡ pool.hint self.now layout strategy }
        ensures keeps { Valid result.config.bucket_layout.size result.config.bucket_layout.align }
    {
        let bucket = self.hint_bucket(layout, strategy);
        let count = self.hint_count(strategy);
        SharedMemorySetupHint {
            payload_size: bucket.size() as u128 * count as u128,
            config: Config {
                bucket_layout: Layout::from(bucket),
            },
        }
    }

    fn bucket(&self) -> u32 {
        self.layout.size()
    }

    fn can_set_up(config: Config, payload: u32) -> bool {
        bucket_of(config, payload).is_some()
    }

    // What is not possible becomes a pool without buckets, which gives no start.
    fn set_up(config: Config, payload: u32) -> PoolAllocator
        ensures fresh { pool_possible config payload ≡ true → PoolFresh config payload result }
        ensures none { pool_possible config payload ≡ false → PoolSetUp payload 1 1 0 result }
    {
        let Some(layout) = bucket_of(config, payload) else {
            return PoolAllocator {
                payload,
                layout: ValidLayout::least(),
                buckets: Buckets::new(0),
            };
        };
        PoolAllocator {
            payload,
            layout,
            buckets: Buckets::new(payload / layout.size()),
        }
    }

    fn allocate(&mut self, layout: ValidLayout) -> Result<u32, ShmAllocationError> {
        if layout.align() > self.layout.align() {
            return Err(ShmAllocationError::ExceedsMaxSupportedAlignment);
        }
        if layout.size() > self.layout.size() {
            return Err(ShmAllocationError::SizeTooLarge);
        }
        let i = self.buckets.pop().ok_or(ShmAllocationError::OutOfMemory)?;
        Ok(i * self.layout.size())
    }

    fn deallocate(&mut self, at: u32, size: u32) -> Result<(), NotHeld> {
        let bucket = self.layout.size();
        if size < 1 || size > bucket {
            return Err(NotHeld);
        }
        if at % bucket != 0 {
            return Err(NotHeld);
        }
        let i = at / bucket;
        if i >= self.buckets.count() {
            return Err(NotHeld);
        }
        if !self.buckets.is_taken(i) {
            return Err(NotHeld);
        }
        self.buckets.push(i);
        Ok(())
    }
}

impl BucketAllocator for PoolAllocator {
    fn bucket_size(&self) -> u32 {
        self.bucket()
    }
}
