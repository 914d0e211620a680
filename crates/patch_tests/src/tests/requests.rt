use patch_control::Requests;
use std::test::Fail;

#[test]
fn asks_and_tolds_in_order(rt: HostRuntime) -> Result<(), Fail> {
    let mut requests = Requests::new(rt.alloc());
    requests.asked(3, 0)?;
    requests.asked(1, 2)?;
    requests.told(1, &[7, 8])?;
    assert!(rt; requests.asks.as_slice() == [(3, 0), (1, 2)].as_slice());
    assert!(rt;
        requests.tolds.as_slice().iter().all(|told| told.0 == 1
            && told.1.as_slice() == [7, 8].as_slice())
    );
    assert_eq!(rt; requests.tolds.len(), 1);
    Ok(())
}
