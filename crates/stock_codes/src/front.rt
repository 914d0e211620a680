use plug_api::{Front, Ports, Sched};
use stock_jobs::{BurstFront, FetchFront};
use stock_sound::{Amplifier, Constant, Echo, Mixer};
use stock_state::KeepFront;
use stock_tank::TankFront;

/// A front of a stock code.
#[derive(Drop)]
pub enum StockFront {
    Constant(Constant),
    Amplifier(Amplifier),
    Mixer(Mixer),
    Echo(Echo),
    Fetch(FetchFront),
    Burst(BurstFront),
    Keep(KeepFront),
    Tank(TankFront),
}

impl Front for StockFront {
    ghost use Rattle.stock_codes.specs.Fronts.{stock_front};

    ghost meaning = { stock_front };

    fn activate(&mut self) {
        match self {
            StockFront::Constant(front) => front.activate(),
            StockFront::Amplifier(front) => front.activate(),
            StockFront::Mixer(front) => front.activate(),
            StockFront::Echo(front) => front.activate(),
            StockFront::Fetch(front) => front.activate(),
            StockFront::Burst(front) => front.activate(),
            StockFront::Keep(front) => front.activate(),
            StockFront::Tank(front) => front.activate(),
        }
    }

    fn deactivate(&mut self) {
        match self {
            StockFront::Constant(front) => front.deactivate(),
            StockFront::Amplifier(front) => front.deactivate(),
            StockFront::Mixer(front) => front.deactivate(),
            StockFront::Echo(front) => front.deactivate(),
            StockFront::Fetch(front) => front.deactivate(),
            StockFront::Burst(front) => front.deactivate(),
            StockFront::Keep(front) => front.deactivate(),
            StockFront::Tank(front) => front.deactivate(),
        }
    }

    fn run<S: Sched>(&mut self, ports: &mut Ports<'_>, sched: &mut S) {
        match self {
            StockFront::Constant(front) => front.run(ports, sched),
            StockFront::Amplifier(front) => front.run(ports, sched),
            StockFront::Mixer(front) => front.run(ports, sched),
            StockFront::Echo(front) => front.run(ports, sched),
            StockFront::Fetch(front) => front.run(ports, sched),
            StockFront::Burst(front) => front.run(ports, sched),
            StockFront::Keep(front) => front.run(ports, sched),
            StockFront::Tank(front) => front.run(ports, sched),
        }
    }

    fn work_response(&mut self, body: &[u8]) {
        match self {
            StockFront::Constant(front) => front.work_response(body),
            StockFront::Amplifier(front) => front.work_response(body),
            StockFront::Mixer(front) => front.work_response(body),
            StockFront::Echo(front) => front.work_response(body),
            StockFront::Fetch(front) => front.work_response(body),
            StockFront::Burst(front) => front.work_response(body),
            StockFront::Keep(front) => front.work_response(body),
            StockFront::Tank(front) => front.work_response(body),
        }
    }

    fn end_run(&mut self) {
        match self {
            StockFront::Constant(front) => front.end_run(),
            StockFront::Amplifier(front) => front.end_run(),
            StockFront::Mixer(front) => front.end_run(),
            StockFront::Echo(front) => front.end_run(),
            StockFront::Fetch(front) => front.end_run(),
            StockFront::Burst(front) => front.end_run(),
            StockFront::Keep(front) => front.end_run(),
            StockFront::Tank(front) => front.end_run(),
        }
    }
}
