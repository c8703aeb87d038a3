ghost use Rattle.std.specs.Prelude.{◌≡◌, ℕ};
ghost use Rattle.shared_memory.specs.Extents.{Extents, Rule};
ghost use Rattle.shared_memory.specs.Placings.{Lawful};
ghost use Rattle.shared_memory.specs.Tables.{memory, extents};

use crate::table::{Place, SegmentTable};

// A way of choosing where in a store's memory a new segment is to lie.
pub(crate) trait Placing: Drop {
    ghost rule: { Self → Rule };

    // How segments that were all placed in this way lie in a memory of so many bytes.
    ghost lays: { Self → Extents → ℕ → Type 0 };

    fn place(&self, table: &SegmentTable, size: u64) -> Option<Place>
        requires { ∥ lays self.now (extents table.now) (memory table.now) ∥₁ }
        ensures { result ≡ rule self.now (extents table.now) size };

    ghost lawful: { Lawful rule lays };
}
