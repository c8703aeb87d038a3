// Ported from src/shared_memory/mod.rs of crate iceoryx2-cal 0.9.3; see NOTICE.

ghost use Rattle.std.specs.Prelude.{◌^◌, ◌<◌};

// What make and open answer.
#[derive(Clone, Copy, PartialEq, Eq, Debug)]
pub struct Opened {
    pub handle: u16,
    pub address: u64,
    pub allocator_id: u8,
    ghost low: { address < 2 ^ 63 },
}
