ghost use Rattle.std.specs.Prelude.{◌≡◌, ◌*◌};
ghost use Rattle.shared_memory.specs.Spans.{pages_of, first_run, span_rule, Spanned};
ghost use Rattle.shared_memory.specs.Spanning.{spans_lawful};
ghost use Rattle.shared_memory.specs.Tables.{memory, extents};

use super::Pages;
use crate::placing::Placing;
use crate::table::{PAGE, Place, SegmentTable};

// How many pages so many bytes take.
fn pages_of(size: usize) -> usize
    ensures { result ≡ pages_of size }
{
    size.div_ceil(PAGE)
}

impl Pages {
    // The first page from which there are enough free pages for that size. Each turn goes on behind a segment that
    // is in the way, so there are no more turns than segments, however many pages there are.
    fn gap(&self, table: &SegmentTable, size: usize) -> Option<usize>
        requires { memory table.now ≡ self.now.count * 4096 }
        ensures { result ≡ first_run (extents table.now) self.now.count (pages_of size) }
    {
        let n = pages_of(size);
        let mut page = 0;
        while page + n <= self.count {
            let Some(end) = table.blocker(page * PAGE, (page + n) * PAGE) else {
                return Some(page);
            };
            page = pages_of(end);
        }
        None
    }
}

impl Placing for Pages {
    ghost rule = { λ p. span_rule p.count };

    ghost lays = { λ p es n. Spanned es n p.count };

    fn place(&self, table: &SegmentTable, size: u64) -> Option<Place> {
        let handle = table.vacancy()?;
        let page = self.gap(table, size as usize)?;
        Some(Place {
            handle,
            start: page * PAGE,
        })
    }

    ghost lawful = { spans_lawful };
}
