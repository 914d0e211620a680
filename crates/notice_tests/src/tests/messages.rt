use super::atoms::{GET, GET_ALL, SET};
use lv_base::{Fixed, Text};
use message_bytes::MessageWriter;
use session_script::Deed;
use std::alloc::Global;
use std::test::Fail;
use step_record::Parcel;
use urid_map::{Urids, is_iri_text};

const LEVEL: &str = "urn:lv2fx:level";

/// The URIs from the start, and that of the level, whose number is 26.
pub fn with_level(alloc: Global) -> Result<Urids, Fail> {
    let mut urids = Urids::new(alloc)?;
    let level = Text::from_str(alloc, LEVEL)?;
    if is_iri_text(&level) {
        urids.map(&level)?;
    }
    Ok(urids)
}

/// The message that an action sends once the level has its number.
fn message(alloc: Global, deed: &Deed) -> Result<Option<Parcel>, Fail> {
    let urids = with_level(alloc)?;
    let mut writer = MessageWriter::new(alloc)?;
    Ok(writer.message_of(&urids, deed))
}

fn is_message(message: Option<Parcel>, bytes: &[u8]) -> bool {
    match message {
        Some(parcel) => parcel.as_slice() == bytes,
        None => false,
    }
}

#[test]
fn a_set(rt: HostRuntime) -> Result<(), Fail> {
    let property = Text::from_str(rt.alloc(), LEVEL)?;
    let value = Fixed(1 << 22);
    let sent = message(rt.alloc(), &Deed::PatchFixed { property, value })?;
    assert!(rt; is_message(sent, &SET));
    Ok(())
}

#[test]
fn a_get(rt: HostRuntime) -> Result<(), Fail> {
    let property = Some(Text::from_str(rt.alloc(), LEVEL)?);
    let sent = message(rt.alloc(), &Deed::PatchGet { property })?;
    assert!(rt; is_message(sent, &GET));
    Ok(())
}

#[test]
fn a_get_of_all(rt: HostRuntime) -> Result<(), Fail> {
    let sent = message(rt.alloc(), &Deed::PatchGet { property: None })?;
    assert!(rt; is_message(sent, &GET_ALL));
    Ok(())
}

#[test]
fn a_save_sends_none(rt: HostRuntime) -> Result<(), Fail> {
    let sent = message(rt.alloc(), &Deed::Save)?;
    assert!(rt; sent.is_none());
    Ok(())
}
