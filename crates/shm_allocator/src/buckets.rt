ghost use Rattle.std.specs.Prelude.{◌≡◌, ℕ, ◌+◌, ◌<◌, ◌≤◌, false, length, ◌≢◌, slice_index, slice_index_or};
ghost use Rattle.arrayvec.specs.ArrayVec.{array_vec_len};
ghost use Rattle.shm_allocator.specs.Flags.{trues};

use arrayvec::ArrayVec;

mod list;

pub(crate) const MAX_BUCKETS: usize = 1024;

// Which of `count` buckets are free: those in `free`, the next one to give out last, so that giving out and taking
// back cost the same however many there are.
#[derive(Drop)]
pub struct Buckets {
    count: u32,
    free: ArrayVec<u32, MAX_BUCKETS>,
    taken: [bool; MAX_BUCKETS],
    ghost long: { length taken ≡ 1024 },
    ghost few: { count ≤ 1024 },
    ghost inside: { (j : ℕ) → j < array_vec_len free → slice_index free.items j < count },
    ghost untaken: { (j : ℕ) → j < array_vec_len free → slice_index_or taken (slice_index free.items j) false ≡ false },
    ghost apart: { (j k : ℕ) → j < k → k < array_vec_len free → slice_index free.items j ≢ slice_index free.items k },
    ghost whole: { array_vec_len free + trues taken ≡ count },
}
