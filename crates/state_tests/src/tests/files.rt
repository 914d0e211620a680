use crate::tests::reading::{read_over, store_of};
use lv_base::{Bytes, NoMemory, Text};
use state_file::{Saved, read, write};
use state_store::Shelf;
use std::alloc::Global;
use std::test::Fail;
use urid_map::{Urids, is_iri_text};

/// Two states of a tank, of level 0 and of level 0.5.
const TANKS: &str = "@prefix state: <http://lv2plug.in/ns/ext/state#> .
@prefix fx: <urn:lv2fx:> .

<#save0> a fx:Saved ;
\tfx:name \"t\" ;
\tfx:plugin <urn:lv2fx:tank> ;
\tstate:state [
\t\t<urn:lv2fx:level> [ fx:type <urn:lv2fx:Fixed> ; fx:flags 3 ; fx:bytes \"AAAAAAAAAAA=\" ]
\t] .

<#save1> a fx:Saved ;
\tfx:name \"t\" ;
\tfx:plugin <urn:lv2fx:tank> ;
\tstate:state [
\t\t<urn:lv2fx:level> [ fx:type <urn:lv2fx:Fixed> ; fx:flags 3 ; fx:bytes \"AACAAAAAAAA=\" ]
\t] .
";

/// The number of a URI; 0, which no URI has, where it is none.
fn number_of(urids: &mut Urids, uri: &Text) -> Result<u32, Fail> {
    if is_iri_text(uri) {
        Ok(urids.map(uri)?)
    } else {
        Ok(0)
    }
}

fn tank(alloc: Global, urids: &mut Urids, level: &[u8]) -> Result<Saved, Fail> {
    let key = number_of(urids, &Text::from_str(alloc, "urn:lv2fx:level")?)?;
    let mut shelf = Shelf::with_room(alloc, urids.held())?;
    shelf.store(key, 14, 3, level);
    Ok(Saved {
        name: Text::from_str(alloc, "t")?,
        uri: Text::from_str(alloc, "urn:lv2fx:tank")?,
        props: shelf.finish()?,
    })
}

#[test]
fn writes_the_states_of_tanks(rt: HostRuntime) -> Result<(), Fail> {
    let mut urids = Urids::new(rt.alloc())?;
    let mut saves = Vec::new(rt.alloc());
    saves.push(tank(rt.alloc(), &mut urids, &[0, 0, 0, 0, 0, 0, 0, 0])?)?;
    saves.push(tank(rt.alloc(), &mut urids, &[0, 0, 128, 0, 0, 0, 0, 0])?)?;
    let text = write(rt.alloc(), saves.as_slice(), &urids)?;
    assert!(rt; text.as_slice() == TANKS.as_bytes());
    Ok(())
}

fn has_level(saved: &Saved, key: u32, level: &[u8]) -> bool {
    saved.name.as_str() == "t"
        && saved.uri.as_str() == "urn:lv2fx:tank"
        && saved.props.retrieve(key).is_some_and(|prop| {
            prop.kind == 14 && prop.flags == 3 && prop.bytes.as_slice() == level
        })
}

/// The key is new and gets the number 26; the type had the number 14.
#[test]
fn reads_the_states_of_tanks(rt: HostRuntime) -> Result<(), Fail> {
    let mut urids = Urids::new(rt.alloc())?;
    let store = store_of(rt.alloc(), TANKS.as_bytes())?;
    let saves = read(rt.alloc(), &store, &mut urids)?;
    assert!(rt; saves.len() == 2 && urids.held() == 26);
    assert!(rt; has_level(&saves[0], 26, &[0, 0, 0, 0, 0, 0, 0, 0]));
    assert!(rt; has_level(&saves[1], 26, &[0, 0, 128, 0, 0, 0, 0, 0]));
    Ok(())
}

/// The numbers of four URIs.
fn numbers(alloc: Global, urids: &Urids) -> Result<[Option<u32>; 4], Fail> {
    Ok([
        urids.number(&Text::from_str(alloc, "urn:z")?),
        urids.number(&Text::from_str(alloc, "urn:t")?),
        urids.number(&Text::from_str(alloc, "urn:a")?),
        urids.number(&Text::from_str(alloc, "urn:p")?),
    ])
}

/// Of each property first the key gets a number, then the type, in order of the states and of their triples; URIs of plug-ins get none.
#[test]
fn maps_in_order(rt: HostRuntime) -> Result<(), Fail> {
    let mut urids = Urids::new(rt.alloc())?;
    let states =
        "<#s> a fx:Saved ; fx:name \"s\" ; fx:plugin <urn:p> ; state:state [ <urn:z> <#good> ; <urn:a> <#empty> ] .";
    let saves = read_over(rt.alloc(), states, &mut urids)??;
    assert_eq!(rt; saves.len(), 1);
    assert!(rt; numbers(rt.alloc(), &urids)? == [Some(26), Some(27), Some(28), None]);
    Ok(())
}
