ghost use Rattle.std.specs.Prelude.{◌≡◌, ◌≤◌, [], ◌∷◌, pos, length};
ghost use Rattle.lv_base.specs.Number.{sample_of};
ghost use Rattle.plug_api.specs.Buffers.{with_block};
ghost use Rattle.plug_api.specs.Ports.{outs_of, place_of, IsSameLoan};
ghost use Rattle.stock_state.specs.Levels.{level_bytes};
ghost use Rattle.stock_tank.specs.Levels.{sets_in, jobs_for};
ghost use Rattle.stock_tank.specs.Playing.{step, steps, playing, filled, block_of, AreTimed, CanPlay, HasPlayed, IsAhead, Told};

use crate::answer::answer;
use crate::ask::Ask;
use crate::requests::Requests;
use crate::sound::{frames, hear};
use lv_base::{Fixed, to_sample};
use plug_api::{Front, Ports, Sched};
use stock_state::level_in;

const CONTROL: u32 = 0;

/// The sound is its level, which patch messages set and ask for.
#[derive(Drop)]
pub struct TankFront {
    /// The number of the level's key.
    pub(crate) key: u32,
    pub(crate) level: Fixed,
}

impl TankFront {
    /// The level is 0, and its key has this number.
    pub fn with_key(key: u32) -> Self
        ensures { result ≡ record { key = key; level = record { 0 = pos 0 } } }
    {
        TankFront {
            key,
            level: Fixed(0),
        }
    }

    // Sets the level from a frame on, and tells the back. The level so far is heard up to there.
    fn set<S: Sched>(
        &mut self,
        level: Fixed,
        from: usize,
        to: usize,
        ports: &mut Ports<'_>,
        sched: &mut S,
    )
        requires can { CanPlay ports.old }
        requires begins { from ≤ to }
        requires ends { to ≤ length (block_of ports.old) }
        ensures front { self.new ≡ record self.old { level = level } }
        ensures outputs { outs_of ports.new ≡ with_block (outs_of ports.old) (place_of ports.old 2) (filled (block_of ports.old) from to (sample_of self.old.level)) }
        ensures same_loan { IsSameLoan ports.old ports.new }
        ensures told { Told S.went sched.old (level_bytes level ∷ []) sched.new }
    {
        hear(ports, from, to, to_sample(self.level));
        self.level = level;
        sched.schedule_work(&level.0.to_le_bytes());
    }

    // Does what is asked at a time. It gives the frame from which on the level is to be heard.
    fn take<S: Sched>(
        &mut self,
        time: i64,
        ask: Ask,
        from: usize,
        ports: &mut Ports<'_>,
        sched: &mut S,
    ) -> usize
        requires can { CanPlay ports.old }
        requires ahead { IsAhead ports.old from time }
        ensures played { HasPlayed ports.old ports.new (step self.old.key (playing self.old.level from ports.old) (time, ask)) }
        ensures level { self.new ≡ record self.old { level = (step self.old.key (playing self.old.level from ports.old) (time, ask)).level } }
        ensures from { result ≡ (step self.old.key (playing self.old.level from ports.old) (time, ask)).from }
        ensures told { Told S.went sched.old (jobs_for (sets_in ((time, ask) ∷ []))) sched.new }
    {
        match ask {
            Ask::Set(level) => {
                let to = time as usize;
                self.set(level, from, to, ports, sched);
                to
            }
            Ask::Get(wanted) => {
                answer(ports, time, self.key, self.level, wanted);
                from
            }
            Ask::Nothing => from,
        }
    }

    // Does all that is asked.
    fn play<S: Sched>(
        &mut self,
        mut requests: Requests<'_>,
        ports: &mut Ports<'_>,
        sched: &mut S,
    ) -> usize
        requires can { CanPlay ports.old }
        requires times { AreTimed (pos 0) (length (block_of ports.old)) requests }
        ensures played { HasPlayed ports.old ports.new (steps self.old.key (playing self.old.level 0 ports.old) requests.entry) }
        ensures level { self.new ≡ record self.old { level = (steps self.old.key (playing self.old.level 0 ports.old) requests.entry).level } }
        ensures from { result ≡ (steps self.old.key (playing self.old.level 0 ports.old) requests.entry).from }
        ensures within { result ≤ length (block_of ports.new) }
        ensures told { Told S.went sched.old (jobs_for (sets_in requests.entry)) sched.new }
    {
        let mut from = 0;
        while let Some((time, ask)) = requests.next() {
            from = self.take(time, ask, from, ports, sched);
        }
        from
    }
}

impl Front for TankFront {
    ghost use Rattle.stock_tank.specs.Tank.{tank_front};

    ghost meaning = { tank_front };

    fn activate(&mut self) {}

    fn deactivate(&mut self) {}

    fn run<S: Sched>(&mut self, ports: &mut Ports<'_>, sched: &mut S) {
        // The proof takes from here that the level is a number of 64 bits.
        let _level = self.level.0;
        let requests = Requests::of(self.key, ports.events(CONTROL));
        let from = self.play(requests, ports, sched);
        let to = frames(ports);
        hear(ports, from, to, to_sample(self.level));
    }

    fn work_response(&mut self, body: &[u8]) {
        if let Ok(level) = <[u8; 8]>::try_from(body) {
            self.level = level_in(level);
        }
    }

    fn end_run(&mut self) {}
}
