//! Instances at their places, and what waits on their rings.
use super::bench::active;
use super::declared::declared;
use held_bodies::Bodies;
use held_parts::{Parts, Place};
use lv_base::NoMemory;
use std::alloc::Global;
use std::test::Fail;
use stock_codes::Stock;

fn two_places(alloc: Global) -> Result<Parts<Stock>, NoMemory> {
    Parts::new(alloc, 2)
}

#[test]
fn an_instance_is_where_it_was_put(rt: HostRuntime) -> Result<(), Fail> {
    let alloc = rt.alloc();
    let decl = declared(alloc, "urn:lv2fx:amp")?;
    let (front, back) = active(alloc, &decl)?;
    let mut parts = two_places(alloc)?;
    parts.put(1, Place::Active(front, back));
    assert!(&rt; matches!(parts.take(0), Place::Away));
    assert!(&rt; matches!(parts.take(1), Place::Active(_, _)));
    assert!(&rt; matches!(parts.take(1), Place::Away));
    Ok(())
}

#[test]
fn nothing_waits_at_first(rt: HostRuntime) -> Result<(), Fail> {
    let bodies = Bodies::new(rt.alloc(), 3)?;
    assert_eq!(&rt; bodies.each.len(), 3);
    assert!(&rt; bodies.each.as_slice().iter().all(|it| it.jobs.len() == 0));
    assert_eq!(&rt; bodies.replies.len(), 0);
    Ok(())
}
