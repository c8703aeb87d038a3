use super::BaseName;
use pointer_offset::SegmentId;
use std::process::Abort;
use std::test::Fail;

// Segment `id` of the base "a" has the expected name.
fn check_name(rt: &impl Abort, id: u8, expected: &[u8]) -> Result<(), Fail> {
    let name = BaseName::new(b"a")?.segment(SegmentId::new(id));
    assert_eq!(rt; name.as_bytes(), expected);
    Ok(())
}

#[test]
fn ids_are_written_in_decimal(rt: HostRuntime) -> Result<(), Fail> {
    check_name(&rt, 0, b"a__0")?;
    check_name(&rt, 9, b"a__9")?;
    check_name(&rt, 10, b"a__10")?;
    check_name(&rt, 99, b"a__99")?;
    check_name(&rt, 100, b"a__100")?;
    check_name(&rt, 255, b"a__255")
}

#[test]
fn management_has_a_name_of_its_own(rt: HostRuntime) -> Result<(), Fail> {
    let name = BaseName::new(b"a")?.management();
    assert_eq!(rt; name.as_bytes(), b"a__mgmt".as_slice());
    Ok(())
}

#[test]
fn at_most_24_bytes_are_a_base_name(rt: HostRuntime) {
    assert!(rt; BaseName::new(&[b'x'; 24]).is_ok());
    assert!(rt; BaseName::new(&[b'x'; 25]).is_err());
}

#[test]
fn one_or_two_dots_are_denied(rt: HostRuntime) {
    assert!(rt; BaseName::new(b".").is_err());
    assert!(rt; BaseName::new(b"..").is_err());
    assert!(rt; BaseName::new(b"...").is_ok());
}

#[test]
fn no_bytes_and_other_bytes_are_denied(rt: HostRuntime) {
    assert!(rt; BaseName::new(b"").is_err());
    assert!(rt; BaseName::new(b"a b").is_err());
}
