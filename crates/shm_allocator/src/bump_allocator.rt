// Ported from src/shm_allocator/bump_allocator.rs of crate iceoryx2-cal 0.9.3; see NOTICE.

ghost use Rattle.std.specs.Prelude.{◌≤◌};

pub mod calls;

// Nothing is to be configured.
#[derive(Clone, Copy, PartialEq, Eq, Debug, Default)]
pub struct Config {}

// An allocator that only moves a mark: all below it is taken.
#[derive(Drop)]
pub struct BumpAllocator {
    payload: u32,
    mark: u32,
    ghost within: { mark ≤ payload },
}
