ghost use Rattle.std.specs.Prelude.{◌≡◌, ◌≤◌, length, Decides};
ghost use Rattle.shared_memory.specs.Slots.{stored};

use super::StoredName;

impl StoredName {
    pub(crate) fn of(name: &[u8]) -> StoredName
        requires { length name.now ≤ 32 }
        ensures { stored result ≡ name.now }
    {
        let mut bytes = [0; 32];
        bytes[..name.len()].copy_from_slice(name);
        StoredName {
            bytes,
            len: name.len(),
        }
    }

    pub(crate) fn is(&self, name: &[u8]) -> bool
        ensures { Decides result (stored self.now ≡ name.now) }
    {
        &self.bytes[..self.len] == name
    }
}
