//! What the backs of fetch and burst answer.
use arrayvec::ArrayVec;
use lv_base::NoMemory;
use plug_api::Back;
use std::alloc::Global;
use std::process::Abort;
use std::test::Fail;
use step_record::{Count, Log, Parcel};
use stock_jobs::{BurstBack, FetchBack};
use worker_ring::ListRespond;

/// The status of a job, and the responses to it.
#[derive(Drop)]
pub(super) struct Outcome {
    pub status: u8,
    pub responses: ArrayVec<Parcel, 64>,
}

/// What a back does with a job.
pub(super) fn worked<B: Back>(
    alloc: Global,
    back: &mut B,
    job: &[u8],
) -> Result<Outcome, NoMemory> {
    let mut responses: ArrayVec<Parcel, 64> = ArrayVec::new();
    let mut tickets = Count::from_number(0);
    let mut log = Log::with_room(alloc, 18)?;
    let mut answer = ListRespond::new(&mut responses, 4, 2, &mut tickets, &mut log, 19, true);
    let status = back.work(job, &mut answer);
    Ok(Outcome { status, responses })
}

/// A status, and one response.
pub(super) fn assert_worked<R: Abort>(rt: &R, worked: &Outcome, status: u8, response: &[u8]) {
    assert_eq!(rt; worked.status, status);
    assert_eq!(rt; worked.responses.len(), 1);
    let first = worked.responses.as_slice().first();
    assert!(rt; first.is_some_and(|parcel| parcel.as_slice() == response));
}

/// A status, and no response.
pub(super) fn assert_silent<R: Abort>(rt: &R, worked: &Outcome, status: u8) {
    assert_eq!(rt; worked.status, status);
    assert_eq!(rt; worked.responses.len(), 0);
}

/// The third job asks for 3 * 65536.
#[test]
fn fetch_answers_a_job_by_its_level(rt: HostRuntime) -> Result<(), Fail> {
    let got = worked(rt.alloc(), &mut FetchBack, &[2, 0, 0, 0, 0, 0, 0, 0])?;
    assert_worked(&rt, &got, 0, &[0, 0, 3, 0, 0, 0, 0, 0]);
    Ok(())
}

#[test]
fn after_2_to_the_24_jobs_the_level_is_0(rt: HostRuntime) -> Result<(), Fail> {
    let got = worked(rt.alloc(), &mut FetchBack, &[255, 255, 255, 0, 0, 0, 0, 0])?;
    assert_worked(&rt, &got, 0, &[0; 8]);
    Ok(())
}

#[test]
fn fetch_does_no_job_of_seven_bytes(rt: HostRuntime) -> Result<(), Fail> {
    let got = worked(rt.alloc(), &mut FetchBack, &[0; 7])?;
    assert_silent(&rt, &got, 1);
    Ok(())
}

#[test]
fn burst_answers_by_the_first_byte(rt: HostRuntime) -> Result<(), Fail> {
    let got = worked(rt.alloc(), &mut BurstBack, &[7, 8, 9])?;
    assert_worked(&rt, &got, 0, &[7]);
    Ok(())
}

#[test]
fn burst_answers_an_empty_job_by_nothing(rt: HostRuntime) -> Result<(), Fail> {
    let got = worked(rt.alloc(), &mut BurstBack, &[])?;
    assert_worked(&rt, &got, 0, &[]);
    Ok(())
}
