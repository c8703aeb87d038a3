use shm_allocator::layout::{BadLayout, Layout, ValidLayout};

pub fn layout(size: u64, align: u64) -> Result<ValidLayout, BadLayout> {
    ValidLayout::try_from(Layout { size, align })
}

#[test]
fn limits(rt: HostRuntime) {
    assert!(rt; layout(0, 1).is_err());
    assert!(rt; layout(1, 1).is_ok());
    assert!(rt; layout(16_777_216, 65_536).is_ok());
    assert!(rt; layout(16_777_217, 1).is_err());
    assert!(rt; layout(1, 131_072).is_err());
    assert!(rt; layout(1, 0).is_err());
    assert!(rt; layout(1, 24).is_err());
}
