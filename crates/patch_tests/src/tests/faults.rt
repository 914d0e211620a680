use super::objects::fault_of;
use atom_core::read;
use patch_control::{PatchFault, read_message};
use std::test::Fail;

const GET: u8 = 15;

const SET: u8 = 16;

const PUT: u8 = 17;

/// Why an Int is no message.
fn int_fault() -> Option<PatchFault> {
    let view = read(&[4, 0, 0, 0, 1, 0, 0, 0, 7, 0, 0, 0]).ok()?;
    read_message(view).err()
}

#[test]
fn an_int(rt: HostRuntime) {
    assert_eq!(rt; int_fault(), Some(PatchFault::NotPatch));
}

#[test]
fn no_property(rt: HostRuntime) -> Result<(), Fail> {
    assert_eq!(rt;
        fault_of(rt.alloc(), SET, b"v")?,
        Some(PatchFault::NoProperty)
    );
    assert_eq!(rt;
        fault_of(rt.alloc(), SET, b"0v")?,
        Some(PatchFault::NoProperty)
    );
    assert_eq!(rt;
        fault_of(rt.alloc(), SET, b"iv")?,
        Some(PatchFault::NoProperty)
    );
    Ok(())
}

#[test]
fn no_value(rt: HostRuntime) -> Result<(), Fail> {
    assert_eq!(rt; fault_of(rt.alloc(), SET, b"p")?, Some(PatchFault::NoValue));
    Ok(())
}

#[test]
fn no_body(rt: HostRuntime) -> Result<(), Fail> {
    assert_eq!(rt; fault_of(rt.alloc(), PUT, b"s")?, Some(PatchFault::NoBody));
    assert_eq!(rt; fault_of(rt.alloc(), PUT, b"j")?, Some(PatchFault::NoBody));
    Ok(())
}

#[test]
fn one_key_twice(rt: HostRuntime) -> Result<(), Fail> {
    assert_eq!(rt;
        fault_of(rt.alloc(), GET, b"pxp")?,
        Some(PatchFault::SameKey)
    );
    assert_eq!(rt;
        fault_of(rt.alloc(), SET, b"pvv")?,
        Some(PatchFault::SameKey)
    );
    assert_eq!(rt;
        fault_of(rt.alloc(), PUT, b"bss")?,
        Some(PatchFault::SameKey)
    );
    Ok(())
}

#[test]
fn one_of_two_counts(rt: HostRuntime) -> Result<(), Fail> {
    assert_eq!(rt;
        fault_of(rt.alloc(), SET, b"0pv")?,
        Some(PatchFault::SameKey)
    );
    assert_eq!(rt;
        fault_of(rt.alloc(), PUT, b"jb")?,
        Some(PatchFault::SameKey)
    );
    Ok(())
}

#[test]
fn two_faults_of_a_set(rt: HostRuntime) -> Result<(), Fail> {
    assert_eq!(rt;
        fault_of(rt.alloc(), SET, b"")?,
        Some(PatchFault::NoProperty)
    );
    assert_eq!(rt;
        fault_of(rt.alloc(), SET, b"vv")?,
        Some(PatchFault::NoProperty)
    );
    assert_eq!(rt;
        fault_of(rt.alloc(), SET, b"pp")?,
        Some(PatchFault::NoValue)
    );
    Ok(())
}

#[test]
fn two_faults_of_a_put(rt: HostRuntime) -> Result<(), Fail> {
    assert_eq!(rt; fault_of(rt.alloc(), PUT, b"ss")?, Some(PatchFault::NoBody));
    assert_eq!(rt; fault_of(rt.alloc(), PUT, b"jj")?, Some(PatchFault::NoBody));
    Ok(())
}
