use crate::programs::trace_of_the_write;
use cycle_profile::Profile;
use outside_io::MemorySink;
use std::test::Fail;

#[test]
fn a_write_of_8840_is_charged_to_its_routine(rt: HostRuntime) -> Result<(), Fail> {
    let mut profile = Profile::new(rt.alloc(), 0x9000)?;
    profile.take(&trace_of_the_write(), 0x9003);
    let mut out = MemorySink::new(rt.alloc(), 100, &[])?;
    assert_eq!(rt; profile.write(&mut out), Ok(()));
    // The routine at 9000 was entered before the profile, and has four clocks and one access of a
    // device.
    assert_eq!(rt; out.bytes(), b"R 9000 0 4 1\nT 4\n".as_slice());
    Ok(())
}
