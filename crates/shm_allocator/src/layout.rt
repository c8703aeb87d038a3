ghost use Rattle.std.specs.Prelude.{◌≡◌, ◌+◌, ◌^◌, ◌<◌, ◌≤◌};
ghost use Rattle.shm_allocator.specs.Numbers.{IsPowerOfTwo, rounded_up};

pub use validation::BadLayout;

pub(crate) mod growth;
mod validation;

// A request as it comes: how many bytes, and on which boundary. Nothing is known of either number.
#[derive(Clone, Copy, PartialEq, Eq, Debug)]
pub struct Layout {
    pub size: u64,
    pub align: u64,
}

// A request that keeps the rules.
#[derive(Clone, Copy, PartialEq, Eq, Debug)]
pub struct ValidLayout {
    size: u32,
    align: u32,
    ghost sized: { (1 ≤ size) × (size ≤ 16777216) },
    ghost aligned: { IsPowerOfTwo align × (align ≤ 65536) },
}

impl ValidLayout {
    pub fn size(&self) -> u32
        ensures value { result ≡ self.now.size }
        ensures bound { (1 ≤ result) × (result ≤ 16777216) }
    {
        self.size
    }

    pub fn align(&self) -> u32
        ensures value { result ≡ self.now.align }
        ensures bound { (1 ≤ result) × (result ≤ 65536) }
    {
        self.align
    }
}

impl From<ValidLayout> for Layout {
    ghost from_gives = { λ valid raw. (raw.size ≡ valid.size) × (raw.align ≡ valid.align) };

    fn from(layout: ValidLayout) -> Layout {
        Layout {
            size: layout.size as u64,
            align: layout.align as u64,
        }
    }
}

// x rounded up to a multiple of a. By hand, since `next_multiple_of` tests the remainder, at each request.
pub(crate) fn round_up(x: u64, a: u64) -> u64
    requires { (0 < a) × (x + a < 2 ^ 64) }
    ensures value { result ≡ rounded_up x a }
    ensures bound { (x ≤ result) × (result < x + a) }
{
    (x + (a - 1)) / a * a
}
