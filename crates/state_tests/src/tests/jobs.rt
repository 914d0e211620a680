use safe_restore::{Asked, LocalJobs};
use std::test::Fail;
use step_record::Parcel;

fn has_room_for(jobs: &mut LocalJobs, body: &[u8]) -> bool {
    Parcel::new(body).is_some_and(|job| jobs.add(job).is_ok())
}

fn is_next(jobs: &mut LocalJobs, body: &[u8]) -> bool {
    jobs.next().is_some_and(|job| job.as_slice() == body)
}

#[test]
fn gives_the_oldest_job_first(rt: HostRuntime) -> Result<(), Fail> {
    let mut jobs = LocalJobs::with_room(rt.alloc(), 2)?;
    assert!(rt; has_room_for(&mut jobs, &[1]) && has_room_for(&mut jobs, &[2, 2]));
    assert!(rt; !has_room_for(&mut jobs, &[3]));
    assert!(rt; is_next(&mut jobs, &[1]) && has_room_for(&mut jobs, &[]));
    assert!(rt; is_next(&mut jobs, &[2, 2]) && is_next(&mut jobs, &[]) && jobs.next().is_none());
    Ok(())
}

#[test]
fn hands_over_both_parts(rt: HostRuntime) {
    let held = Asked::new().front(7u32).back('b');
    assert!(rt; held.apart() == (7, 'b'));
    assert!(rt; Asked::new().front(7u32).back('b').stop() == (7, 'b'));
    assert!(rt; Asked::new().front(7u32).stop() == 7);
}
