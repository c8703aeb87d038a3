ghost use Rattle.std.specs.Prelude.{◌≡◌, ◌^◌, ◌≤◌};
ghost use Rattle.shm_allocator.specs.Sizes.{grows, raise, rounded_size, grown_size, grown_align};

use super::{ValidLayout, round_up};
use crate::AllocationStrategy;

impl AllocationStrategy {
    // Whether a hint may ask for more than there is.
    pub(crate) fn grows(self) -> bool
        ensures { result ≡ grows self }
    {
        match self {
            AllocationStrategy::BestFit | AllocationStrategy::PowerOfTwo => true,
            AllocationStrategy::Static => false,
        }
    }

    pub(crate) fn raised(self, n: u64) -> u64
        requires { n ≤ 2 ^ 63 }
        ensures { result ≡ raise self n }
    {
        match self {
            AllocationStrategy::PowerOfTwo => n.next_power_of_two(),
            AllocationStrategy::BestFit | AllocationStrategy::Static => n,
        }
    }
}

impl ValidLayout {
    // The least layout: one byte anywhere.
    pub fn least() -> ValidLayout
        ensures { (result.size ≡ 1) × (result.align ≡ 1) }
    {
        ValidLayout { size: 1, align: 1 }
    }

    // The same alignment, and the size rounded up to a multiple of it.
    pub(crate) fn rounded(self) -> ValidLayout
        ensures { (result.size ≡ rounded_size self) × (result.align ≡ self.align) }
    {
        let size = round_up(self.size as u64, self.align as u64);
        ValidLayout {
            size: size as u32,
            align: self.align,
        }
    }

    // A layout that serves both.
    pub(crate) fn grown(self, other: ValidLayout, strategy: AllocationStrategy) -> ValidLayout
        ensures { (result.size ≡ grown_size self other strategy) × (result.align ≡ grown_align self other) }
    {
        let align = self.align().max(other.align());
        let size = strategy.raised(self.size().max(other.size()) as u64);
        ValidLayout {
            size: round_up(size, align as u64) as u32,
            align,
        }
    }
}
