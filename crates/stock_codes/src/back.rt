use plug_api::{Back, Respond, Sched};
use state_store::{Props, Shelf};
use stock_jobs::{BurstBack, FetchBack};
use stock_sound::Idle;
use stock_state::KeepBack;
use stock_tank::TankBack;

/// A back of a stock code.
#[derive(Drop)]
pub enum StockBack {
    /// Of a code without a worker and a state.
    Idle(Idle),
    Fetch(FetchBack),
    Burst(BurstBack),
    Keep(KeepBack),
    Tank(TankBack),
}

impl Back for StockBack {
    ghost use Rattle.stock_codes.specs.Backs.{stock_back};

    ghost meaning = { stock_back };

    fn work<R: Respond>(&mut self, body: &[u8], answer: &mut R) -> u8 {
        match self {
            StockBack::Idle(back) => back.work(body, answer),
            StockBack::Fetch(back) => back.work(body, answer),
            StockBack::Burst(back) => back.work(body, answer),
            StockBack::Keep(back) => back.work(body, answer),
            StockBack::Tank(back) => back.work(body, answer),
        }
    }

    fn save(&self, shelf: &mut Shelf) -> u8 {
        match self {
            StockBack::Idle(back) => back.save(shelf),
            StockBack::Fetch(back) => back.save(shelf),
            StockBack::Burst(back) => back.save(shelf),
            StockBack::Keep(back) => back.save(shelf),
            StockBack::Tank(back) => back.save(shelf),
        }
    }

    fn restore_safe<S: Sched>(&mut self, from: &Props, sched: &mut S) -> u8 {
        match self {
            StockBack::Idle(back) => back.restore_safe(from, sched),
            StockBack::Fetch(back) => back.restore_safe(from, sched),
            StockBack::Burst(back) => back.restore_safe(from, sched),
            StockBack::Keep(back) => back.restore_safe(from, sched),
            StockBack::Tank(back) => back.restore_safe(from, sched),
        }
    }
}
