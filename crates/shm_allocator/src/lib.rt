// Ported from src/shm_allocator/mod.rs of crate iceoryx2-cal 0.9.3; see NOTICE.
#![tactic(auto)]

ghost use Rattle.std.specs.Prelude.{◌≡◌, ℕ, ◌+◌, ◌<◌, ◌≤◌, true, MatchResult, ◌≢◌};
ghost use Rattle.shm_allocator.specs.Instances.{Instances};
ghost use Rattle.shm_allocator.specs.Meaning.{Meaning, Lawful, Answered, Declined, Accepted, Denied, refusal_number, not_held_number};
ghost use Rattle.shm_allocator.specs.declared.AllocationStrategy.TheVariants.{Static};

use layout::ValidLayout;
pub use pointer_offset::Denial;

mod buckets;
pub mod bump_allocator;
pub mod layout;
pub mod pool_allocator;

// How a memory grows once its allocator has no room for a request.
#[derive(Clone, Copy, PartialEq, Eq, Debug)]
pub enum AllocationStrategy {
    // To exactly what is needed: no byte is wasted, and growths are many.
    BestFit,
    // To the next power of two: growths are few.
    PowerOfTwo,
    // Not at all.
    Static,
}

// By hand, since a derived impl would promise nothing that a caller can name.
impl Default for AllocationStrategy {
    ghost is_default = { λ way. way ≡ Static };

    fn default() -> AllocationStrategy {
        AllocationStrategy::Static
    }
}

// Why an allocator gave no start.
#[derive(Clone, Copy, PartialEq, Eq, Debug)]
pub enum ShmAllocationError {
    OutOfMemory,
    SizeTooLarge,
    ExceedsMaxSupportedAlignment,
}

impl Denial for ShmAllocationError {
    ghost number_of = { refusal_number };

    fn number(&self) -> u8 {
        match self {
            ShmAllocationError::OutOfMemory => 20,
            ShmAllocationError::SizeTooLarge => 21,
            ShmAllocationError::ExceedsMaxSupportedAlignment => 22,
        }
    }
}

// A return that no taken block answers to.
#[derive(Clone, Copy, PartialEq, Eq, Debug)]
pub struct NotHeld;

impl Denial for NotHeld {
    ghost number_of = { not_held_number };

    fn number(&self) -> u8 {
        11
    }
}

// What to set a segment up with. The payload is told exactly, however large.
#[derive(Clone, Copy, PartialEq, Eq, Debug)]
pub struct SharedMemorySetupHint<C> {
    pub payload_size: u128,
    pub config: C,
}

// Gives out the payload bytes of one segment.
pub trait ShmAllocator: Sized + Drop {
    type Configuration: Copy;

    ghost means: { Meaning Self Self.Configuration };

    fn unique_id() -> u8
        ensures { result ≡ means.id };

    fn initial_setup_hint(
        layout: ValidLayout,
        chunks: u64,
    ) -> SharedMemorySetupHint<Self::Configuration>
        ensures { result ≡ means.initial layout chunks };

    fn resize_hint(
        &self,
        layout: ValidLayout,
        strategy: AllocationStrategy,
    ) -> SharedMemorySetupHint<Self::Configuration>
        ensures { result ≡ means.hint self.now layout strategy };

    // The bucket size, or 0 where there are no buckets: 0 is the number that the rules give.
    fn bucket(&self) -> u32
        ensures { result ≡ means.bucket self.now };

    fn can_set_up(config: Self::Configuration, payload: u32) -> bool
        ensures { result ≡ means.possible config payload };

    // Total: what comes of a configuration that is not possible is each allocator's to say.
    fn set_up(config: Self::Configuration, payload: u32) -> Self
        ensures { means.possible config payload ≡ true → means.fresh config payload result };

    fn allocate(&mut self, layout: ValidLayout) -> Result<u32, ShmAllocationError>
        ensures { MatchResult result (Answered means self.old layout self.new) (Declined means self.old layout self.new) };

    fn deallocate(&mut self, at: u32, size: u32) -> Result<(), NotHeld>
        ensures { MatchResult result (λ _. Accepted means self.old at size self.new) (λ _. Denied means self.old at size self.new) };

    ghost lawful: { Lawful means };
}

// An allocator of equal buckets.
pub trait BucketAllocator: ShmAllocator {
    fn bucket_size(&self) -> u32
        ensures value { result ≡ Self.ShmAllocator.means.bucket self.now }
        ensures some { result ≢ 0 };
}

// Its contract is the theorem: the worked instances of docs/RULES.md.
pub fn instances_stand()
    ensures { Instances }
{}
