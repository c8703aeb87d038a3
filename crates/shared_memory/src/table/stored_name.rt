ghost use Rattle.std.specs.Prelude.{◌≡◌, ◌≤◌, length};

mod bytes;

// The name of a segment that stands, any bytes. A slot is copied out, changed and put back, so this is `Copy`, which the
// library's vector is not.
#[derive(Clone, Copy)]
pub(crate) struct StoredName {
    bytes: [u8; 32],
    len: usize,
    ghost fits: { len ≤ 32 },
    ghost whole: { length bytes ≡ 32 },
}
