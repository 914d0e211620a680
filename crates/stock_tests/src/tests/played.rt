//! What the stock codes play in a block of 16 frames.
ghost use Rattle.std.specs.Prelude.{◌≡◌};
ghost use Rattle.plugin_decl.specs.declared.declaration.Port.{Port};
ghost use Rattle.stock_tests.specs.Bench.{IsBench, HaveOuts};

use super::bench::{Bench, Played, bench_for, play_first, put_samples, put_value};
use lv_base::{Fixed, Sample};
use plug_api::{Outs, has_audio, has_control};
use plugin_decl::Port;
use std::alloc::Global;
use std::process::Abort;
use std::test::Fail;

/// A sample of 1.0, and a value.
const ONE: Sample = Sample(1 << 24);

const HALF: Sample = Sample(1 << 23);

const FIXED_HALF: Fixed = Fixed(1 << 23);

/// The samples at an output, none where it is no audio port.
pub(super) fn heard<'a>(outs: &'a Outs, ports: &[Port], i: u32) -> &'a [Sample]
    requires { HaveOuts ports.now outs.now }
{
    if has_audio(false, ports, i) {
        outs.block(i)
    } else {
        &[]
    }
}

/// The value at an output, if it is a control port.
fn told(outs: &Outs, ports: &[Port], i: u32) -> Option<Fixed>
    requires { HaveOuts ports.now outs.now }
{
    if has_control(false, ports, i) {
        Some(outs.value(i))
    } else {
        None
    }
}

/// Whether all 16 frames are one sample.
fn is_even(samples: &[Sample], sample: Sample) -> bool {
    samples.len() == 16 && samples.iter().all(|found| found.0 == sample.0)
}

fn plays_its_value(alloc: Global, bench: &mut Bench) -> Result<bool, Fail>
    requires { IsBench bench.old.decl bench.old.ins }
{
    put_value(bench, 0, FIXED_HALF)?;
    let played = play_first(alloc, bench)?;
    let samples = heard(&played.outs, bench.decl.ports.as_slice(), 1);
    Ok(is_even(samples, HALF))
}

fn plays_its_value_as_told(alloc: Global) -> Result<bool, Fail> {
    let mut bench = bench_for(alloc, "urn:lv2fx:const")?;
    plays_its_value(alloc, &mut bench)
}

#[test]
fn a_constant_is_its_value(rt: HostRuntime) -> Result<(), Fail> {
    assert!(rt; plays_its_value_as_told(rt.alloc())?);
    Ok(())
}

/// Half of 1.0.
fn halves(alloc: Global, bench: &mut Bench) -> Result<bool, Fail>
    requires { IsBench bench.old.decl bench.old.ins }
{
    put_value(bench, 0, FIXED_HALF)?;
    put_samples(bench, 1, &[ONE; 16])?;
    let played = play_first(alloc, bench)?;
    let samples = heard(&played.outs, bench.decl.ports.as_slice(), 2);
    Ok(is_even(samples, HALF))
}

fn halves_as_told(alloc: Global) -> Result<bool, Fail> {
    let mut bench = bench_for(alloc, "urn:lv2fx:amp")?;
    halves(alloc, &mut bench)
}

#[test]
fn an_amplifier_halves(rt: HostRuntime) -> Result<(), Fail> {
    assert!(rt; halves_as_told(rt.alloc())?);
    Ok(())
}

/// 1.0 and 0.5.
fn adds(alloc: Global, bench: &mut Bench) -> Result<bool, Fail>
    requires { IsBench bench.old.decl bench.old.ins }
{
    put_samples(bench, 0, &[ONE; 16])?;
    put_samples(bench, 1, &[HALF; 16])?;
    let played = play_first(alloc, bench)?;
    let samples = heard(&played.outs, bench.decl.ports.as_slice(), 2);
    Ok(is_even(samples, Sample(3 << 23)))
}

fn adds_as_told(alloc: Global) -> Result<bool, Fail> {
    let mut bench = bench_for(alloc, "urn:lv2fx:mix")?;
    adds(alloc, &mut bench)
}

#[test]
fn a_mixer_adds(rt: HostRuntime) -> Result<(), Fail> {
    assert!(rt; adds_as_told(rt.alloc())?);
    Ok(())
}

/// The first frame of 1.0, and eight frames after it a half of it.
fn is_echo(samples: &[Sample]) -> bool {
    samples.len() == 16
        && samples.iter().enumerate().all(|(frame, found)| match frame {
            0 => found.0 == ONE.0,
            8 => found.0 == HALF.0,
            _ => found.0 == 0,
        })
}

fn echoes(alloc: Global, bench: &mut Bench) -> Result<bool, Fail>
    requires { IsBench bench.old.decl bench.old.ins }
{
    let mut samples = [Sample(0); 16];
    samples[0] = ONE;
    put_samples(bench, 0, &samples)?;
    put_value(bench, 2, FIXED_HALF)?;
    let played = play_first(alloc, bench)?;
    Ok(is_echo(heard(&played.outs, bench.decl.ports.as_slice(), 1)))
}

fn echoes_as_told(alloc: Global) -> Result<bool, Fail> {
    let mut bench = bench_for(alloc, "urn:lv2fx:echo")?;
    echoes(alloc, &mut bench)
}

#[test]
fn an_echo_comes_after_eight_frames(rt: HostRuntime) -> Result<(), Fail> {
    assert!(rt; echoes_as_told(rt.alloc())?);
    Ok(())
}

fn is_value(found: Option<Fixed>, value: i64) -> bool {
    found.is_some_and(|found| found.0 == value)
}

/// Whether these are the jobs.
fn are_jobs(played: &Played, jobs: &[&[u8]]) -> bool {
    played.jobs.len() == jobs.len()
        && played
            .jobs
            .as_slice()
            .iter()
            .zip(jobs)
            .all(|(job, wanted)| job.as_slice() == *wanted)
}

/// Silence, a job with the number 0, and no refusal.
fn fetches(alloc: Global, bench: &mut Bench) -> Result<bool, Fail>
    requires { IsBench bench.old.decl bench.old.ins }
{
    let played = play_first(alloc, bench)?;
    let ports = bench.decl.ports.as_slice();
    let silent = is_even(heard(&played.outs, ports, 0), Sample(0));
    let refused = told(&played.outs, ports, 1);
    Ok(silent && is_value(refused, 0) && are_jobs(&played, &[[0; 8].as_slice()]))
}

fn fetches_as_told(alloc: Global) -> Result<bool, Fail> {
    let mut bench = bench_for(alloc, "urn:lv2fx:fetch")?;
    fetches(alloc, &mut bench)
}

#[test]
fn fetch_attempts_its_first_job(rt: HostRuntime) -> Result<(), Fail> {
    assert!(rt; fetches_as_told(rt.alloc())?);
    Ok(())
}

/// Of six jobs of two bytes four are taken, as many as there are cells, and two refused.
fn bursts(alloc: Global, bench: &mut Bench) -> Result<bool, Fail>
    requires { IsBench bench.old.decl bench.old.ins }
{
    put_value(bench, 0, Fixed(6 << 24))?;
    put_value(bench, 1, Fixed(2 << 24))?;
    let played = play_first(alloc, bench)?;
    let ports = bench.decl.ports.as_slice();
    let taken = told(&played.outs, ports, 2);
    let refused = told(&played.outs, ports, 3);
    let jobs = are_jobs(&played, &[&[0, 0], &[1, 1], &[2, 2], &[3, 3]]);
    Ok(is_value(taken, 4 << 24) && is_value(refused, 2 << 24) && jobs)
}

fn bursts_as_told(alloc: Global) -> Result<bool, Fail> {
    let mut bench = bench_for(alloc, "urn:lv2fx:burst")?;
    bursts(alloc, &mut bench)
}

#[test]
fn burst_fills_the_queue(rt: HostRuntime) -> Result<(), Fail> {
    assert!(rt; bursts_as_told(rt.alloc())?);
    Ok(())
}

fn keeps(alloc: Global, bench: &mut Bench) -> Result<bool, Fail>
    requires { IsBench bench.old.decl bench.old.ins }
{
    put_value(bench, 1, FIXED_HALF)?;
    let played = play_first(alloc, bench)?;
    let samples = heard(&played.outs, bench.decl.ports.as_slice(), 0);
    Ok(is_even(samples, HALF))
}

fn keeps_as_told(alloc: Global) -> Result<bool, Fail> {
    let mut bench = bench_for(alloc, "urn:lv2fx:keep")?;
    keeps(alloc, &mut bench)
}

#[test]
fn keep_adds_its_value(rt: HostRuntime) -> Result<(), Fail> {
    assert!(rt; keeps_as_told(rt.alloc())?);
    Ok(())
}
