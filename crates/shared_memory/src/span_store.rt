use crate::table_store::TableStore;

mod placing;
mod start;

// A store whose memory is cut into pages. A segment lies in pages side by side that it shares with no other.
pub type SpanStore = TableStore<Pages>;

// So many pages.
#[derive(Drop)]
pub struct Pages {
    count: usize,
}
