ghost use Rattle.std.specs.Prelude.{◌≡◌, ◌^◌, ◌<◌, length};

mod access;
mod withdrawal;

// A mapped segment: its handle and address, its bucket size (0 without buckets) and a count.
#[derive(Clone, Copy, PartialEq, Eq, Debug)]
pub struct Place {
    pub handle: u16,
    pub address: u64,
    pub bucket_size: u32,
    pub count: u32,
    ghost low: { address < 2 ^ 63 },
}

// A place for each segment id, empty or mapped.
#[derive(Clone, Copy)]
pub struct Table {
    places: [Option<Place>; 256],
    ghost whole: { length places ≡ 256 },
}
