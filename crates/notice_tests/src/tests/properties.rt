use super::atoms::SET;
use object_properties::{Properties, Property, after, i32_at, i64_at, u32_at};

fn is_value(property: Option<Property<'_>>) -> bool {
    match property {
        Some(it) => it.kind == 14 && i64_at(it.body, 0) == 1 << 22,
        None => false,
    }
}

#[test]
fn the_properties_of_a_set(rt: HostRuntime) {
    let mut properties = Properties::of(after(&SET, 8));
    assert!(rt;
        properties
            .next()
            .is_some_and(|it| it.key == 18 && u32_at(it.body, 0) == 26)
    );
    assert!(rt; properties.next().is_some_and(|it| it.key == 19));
    assert!(rt; properties.next().is_none());
}

#[test]
fn a_property_by_its_key(rt: HostRuntime) {
    let body = after(&SET, 8);
    assert!(rt; is_value(Properties::of(body).with_key(19)));
    assert!(rt; Properties::of(body).with_key(20).is_none());
}

#[test]
fn bytes_that_are_missing_are_0(rt: HostRuntime) {
    assert_eq!(rt; i32_at(&[254, 255, 255, 255], 0), -2);
    assert_eq!(rt; u32_at(&[1, 2], 1), 2);
    assert_eq!(rt; u32_at(&[], 0), 0);
}
