pub mod calls;

// A store on top of another, whose payloads together take at most a quota of bytes.
#[derive(Drop)]
pub struct QuotaStore<S> {
    below: S,
    quota: u64,
}
