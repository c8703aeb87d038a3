use crate::outcome::{CallError, Done, NotDone};
use crate::words::{Call, SegmentCall, StoreCall};
use crate::workplace::Workplace;
use shared_memory::SegmentStore;
use shared_memory::fault::BadHandle;
use std::alloc::{AllocError, Global};

// Segments are made for no kind of allocator in particular.
const ALLOCATOR_ID: u8 = 0;

// A segment by the name that it was made or opened under.
#[derive(Drop)]
struct Entry {
    name: String,
    handle: u16,
}

// A store, and the names of the segments that were made or opened in it.
#[derive(Drop)]
pub struct Shelf<S: SegmentStore + Drop> {
    heap: Global,
    store: S,
    entries: Vec<Entry>,
}

impl<S: SegmentStore + Drop> Shelf<S> {
    pub fn new(heap: Global, store: S) -> Shelf<S> {
        Shelf {
            heap,
            store,
            entries: Vec::new(heap),
        }
    }

    fn make(&mut self, name: &str, size: u64) -> Result<Done, CallError> {
        let made = self
            .store
            .make(name.as_bytes(), size, ALLOCATOR_ID)
            .map_err(NotDone::NotMade)?;
        self.note(name, made.handle)?;
        Ok(Done::Made(made))
    }

    fn open(&mut self, name: &str) -> Result<Done, CallError> {
        let opened = self
            .store
            .open(name.as_bytes())
            .map_err(NotDone::NotOpened)?;
        self.note(name, opened.handle)?;
        Ok(Done::Opened(opened))
    }

    // Keeps the handle that was answered for a name.
    fn note(&mut self, name: &str, handle: u16) -> Result<(), AllocError> {
        let name = String::from_str(self.heap, name)?;
        self.entries.push(Entry { name, handle })?;
        Ok(())
    }

    // The handle that was last answered for that name.
    fn find(&self, name: &str) -> Result<u16, NotDone> {
        self.entries
            .iter()
            .rfind(|entry| entry.name.as_str() == name)
            .map(|entry| entry.handle)
            .ok_or(NotDone::UnknownName)
    }

    fn on_segment(&mut self, handle: u16, call: SegmentCall<'_>) -> Result<Done, CallError> {
        match call {
            SegmentCall::Withdraw => standing(self.store.withdraw(handle)),
            SegmentCall::Close => standing(self.store.close(handle)),
            SegmentCall::Write { from, text } => {
                self.store
                    .write(handle, from, text.as_bytes())
                    .map_err(NotDone::NoAccess)?;
                Ok(Done::Written)
            }
            SegmentCall::Read { from, count } => self.read(handle, from, count),
        }
    }

    fn read(&self, handle: u16, from: u64, count: u64) -> Result<Done, CallError> {
        let mut buffer = vec![in self.heap; 0u8; count as usize]?;
        self.store
            .read(handle, from, &mut buffer)
            .map_err(NotDone::NoAccess)?;
        Ok(Done::Shows(shown(self.heap, &buffer)?))
    }
}

// What came of a call that may end a segment.
fn standing(answer: Result<bool, BadHandle>) -> Result<Done, CallError> {
    Ok(answer.map(Done::Stands).map_err(NotDone::BadHandle)?)
}

// Bytes as text, with a '.' for what is no visible character. By pushes: a `collect` takes longer.
fn shown(heap: Global, bytes: &[u8]) -> Result<String, AllocError> {
    let mut text = String::new(heap);
    for &byte in bytes {
        text.push(if byte.is_ascii_graphic() {
            char::from(byte)
        } else {
            '.'
        })?;
    }
    Ok(text)
}

impl<S: SegmentStore + Drop> Workplace for Shelf<S> {
    fn carry_out(&mut self, call: Call<'_>) -> Result<Done, CallError> {
        let Call::Store(call) = call else {
            return Err(NotDone::OtherPart.into());
        };
        match call {
            StoreCall::Make { name, size } => self.make(name, size),
            StoreCall::Open { name } => self.open(name),
            StoreCall::Room { size } => Ok(Done::Room(self.store.has_room(size))),
            StoreCall::OnSegment { name, call } => {
                let handle = self.find(name)?;
                self.on_segment(handle, call)
            }
        }
    }

    fn sum_up(&self, rt: &HostRuntime) -> anyhow::Result<()> {
        for (place, Entry { name, handle }) in self.entries.iter().enumerate() {
            let later = &self.entries[place + 1..];
            // The handle may have gone to another segment since.
            if later.iter().any(|entry| entry.handle == *handle) {
                continue;
            }
            if let Some(size) = self.store.payload_size(*handle) {
                println!(rt; "    {name}: {size} bytes stand under handle {handle}")?;
            }
        }
        Ok(())
    }
}
