ghost use Rattle.std.specs.Prelude.{MatchResult};
ghost use Rattle.shared_memory.specs.Faults.{StoreDenied};
ghost use Rattle.shared_memory.specs.SpanStores.{NewSpans};
ghost use Rattle.shared_memory.specs.Spans.{GoodPages};

use super::{Pages, SpanStore};
use crate::fault::StoreError;
use crate::table::{MAX_HANDLES, PAGE, SegmentTable};
use std::alloc::Global;

// 4 GiB together.
const MAX_PAGES: usize = 1_048_576;

impl SpanStore {
    pub fn new(heap: Global, pages: usize) -> Result<SpanStore, StoreError>
        ensures { MatchResult result (λ s. NewSpans pages s.placing.count s.table) (StoreDenied (GoodPages pages)) }
    {
        if pages == 0 || pages > MAX_PAGES {
            return Err(StoreError::BadStore);
        }
        let table = SegmentTable::new(heap, MAX_HANDLES, pages * PAGE)?;
        Ok(SpanStore {
            table,
            placing: Pages { count: pages },
        })
    }
}
