use super::atoms::{GET_ALL, PUT, SET, SET_DOUBLE};
use super::messages::with_level;
use lv_base::Bytes;
use notice_text::push_notice;
use std::alloc::Global;
use std::test::Fail;

/// What a notice says where the level has the number 26.
fn text_of(alloc: Global, atom: &[u8]) -> Result<Bytes, Fail> {
    let urids = with_level(alloc)?;
    let mut text = Bytes::new(alloc);
    push_notice(alloc, &mut text, &urids, atom)?;
    Ok(text)
}

#[test]
fn a_set_of_a_fixed(rt: HostRuntime) -> Result<(), Fail> {
    let text = text_of(rt.alloc(), &SET)?;
    assert!(rt; text.as_slice() == b" set urn:lv2fx:level fixed 4194304".as_slice());
    Ok(())
}

#[test]
fn a_set_of_bytes(rt: HostRuntime) -> Result<(), Fail> {
    let text = text_of(rt.alloc(), &SET_DOUBLE)?;
    let wanted = b" set urn:lv2fx:level bytes http://lv2plug.in/ns/ext/atom#Double AAAAAAAA8D8=";
    assert!(rt; text.as_slice() == wanted.as_slice());
    Ok(())
}

#[test]
fn a_put(rt: HostRuntime) -> Result<(), Fail> {
    let text = text_of(rt.alloc(), &PUT)?;
    assert!(rt; text.as_slice() == b" put urn:lv2fx:level int -2 - fixed 4194304".as_slice());
    Ok(())
}

#[test]
fn a_get(rt: HostRuntime) -> Result<(), Fail> {
    let text = text_of(rt.alloc(), &GET_ALL)?;
    assert!(rt; text.as_slice() == b" other".as_slice());
    Ok(())
}
