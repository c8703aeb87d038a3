ghost use Rattle.std.specs.Prelude.{◌≡◌, ◌<◌, ◌≤◌, true, MatchOption};
ghost use Rattle.shm_allocator.specs.Buckets.{listed, flag, empty, New, Popped, Pushed};

use super::{Buckets, MAX_BUCKETS};
use arrayvec::ArrayVec;

impl Buckets {
    pub(crate) fn new(count: u32) -> Buckets
        requires { count ≤ 1024 }
        ensures { New count result }
    {
        let mut free = ArrayVec::new();
        // By pushes, which cannot fail: `extend` could, for want of room.
        for i in (0..count).rev() {
            free.push(i);
        }
        Buckets {
            count,
            free,
            taken: [false; MAX_BUCKETS],
        }
    }

    pub(crate) fn count(&self) -> u32
        ensures value { result ≡ self.now.count }
        ensures bound { result ≤ 1024 }
    {
        self.count
    }

    // No bucket is free.
    pub(crate) fn is_full(&self) -> bool
        ensures { result ≡ empty (listed self.now) }
    {
        self.free.is_empty()
    }

    pub(crate) fn is_taken(&self, i: u32) -> bool
        requires { i < self.now.count }
        ensures { result ≡ flag self.now i }
    {
        self.taken[i as usize]
    }

    // The front of the free buckets, which is taken from then on.
    pub(crate) fn pop(&mut self) -> Option<u32>
        ensures { MatchOption result ((empty (listed self.old) ≡ true) × (self.new ≡ self.old)) (λ i. Popped self.old i self.new × (i < self.old.count)) }
    {
        let i = self.free.pop()?;
        self.taken[i as usize] = true;
        Some(i)
    }

    // A taken bucket becomes the front of the free ones.
    pub(crate) fn push(&mut self, i: u32)
        requires low { i < self.old.count }
        requires taken { flag self.old i ≡ true }
        ensures { Pushed self.old i self.new }
    {
        self.free.push(i);
        self.taken[i as usize] = false;
    }
}
