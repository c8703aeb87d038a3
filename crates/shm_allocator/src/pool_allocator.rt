// Ported from src/shm_allocator/pool_allocator.rs of crate iceoryx2-cal 0.9.3; see NOTICE.

ghost use Rattle.std.specs.Prelude.{◌≡◌, ◌*◌, ◌%◌, ◌<◌, ◌≤◌};

use crate::buckets::Buckets;
use crate::layout::{Layout, ValidLayout};

pub mod calls;

// What a bucket has to hold.
#[derive(Clone, Copy, PartialEq, Eq, Debug)]
pub struct Config {
    pub bucket_layout: Layout,
}

// An allocator of equal buckets: bucket i starts at i times the layout's size, which is a multiple of its alignment.
#[derive(Drop)]
pub struct PoolAllocator {
    payload: u32,
    layout: ValidLayout,
    buckets: Buckets,
    ghost even: { layout.size % layout.align ≡ 0 },
    ghost inside: { (buckets.count * layout.size ≤ payload) × (payload < 4294967296) },
}
