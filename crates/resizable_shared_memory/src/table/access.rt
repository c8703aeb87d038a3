ghost use Rattle.std.specs.Prelude.{◌≡◌, ℕ, ◌^◌, ◌<◌, true, Some, None, is_some, count_by};
ghost use Rattle.resizable_shared_memory.specs.Places.{place_of, handles, active, Numbers, Put};

use super::{Place, Table};
use arrayvec::ArrayVec;
use pointer_offset::SegmentId;
use shared_memory::opened::Opened;

impl Place {
    // The place of a segment that was just opened.
    pub(crate) fn of(opened: Opened, bucket_size: u32) -> Place
        ensures { Numbers result opened.handle opened.address bucket_size 0 }
    {
        Place {
            handle: opened.handle,
            address: opened.address,
            bucket_size,
            count: 0,
        }
    }

    pub(crate) fn with_count(self, count: u32) -> Place
        ensures { Numbers result self.handle self.address self.bucket_size count }
    {
        let mut place = self;
        place.count = count;
        place
    }
}

impl Table {
    pub(crate) fn empty() -> Table
        ensures { (k : ℕ) → place_of result k ≡ None }
    {
        Table {
            places: [None; 256],
        }
    }

    pub(crate) fn get(&self, id: SegmentId) -> Option<Place>
        ensures { result ≡ place_of self.now id.0 }
    {
        self.places[id.value() as usize]
    }

    // The place of an id that is mapped.
    pub(crate) fn mapped(&self, id: SegmentId) -> Place
        requires { is_some (place_of self.now id.0) ≡ true }
        ensures { place_of self.now id.0 ≡ Some result }
    {
        let Some(place) = self.get(id) else {
            unreachable()
        };
        place
    }

    pub(crate) fn put(&mut self, id: SegmentId, place: Option<Place>)
        ensures { Put self.old id.0 place self.new }
    {
        self.places[id.value() as usize] = place;
    }

    pub(crate) fn number_mapped(&self) -> usize
        ensures { result ≡ active self.now.places }
    {
        number_of_some(&self.places)
    }

    // The handles of the mapped places, in the order of their ids.
    pub(crate) fn handles(&self) -> ArrayVec<u16, 256>
        ensures { result.items ≡ handles self.now.places }
    {
        let mut handles = ArrayVec::new();
        for place in &self.places {
            if let Some(place) = place {
                handles.push(place.handle);
            }
        }
        handles
    }
}

// By `fold`, which takes no branch at a place, where `filter` and `count` take one.
fn number_of_some(places: &[Option<Place>]) -> usize
    ensures { result ≡ count_by is_some places.now }
{
    places.iter().fold(
        0,
        |count, place| if place.is_some() { count + 1 } else { count },
    )
}
