ghost use Rattle.std.specs.Prelude.{◌≡◌, ◌<◌, length, fold, filter, IfOk, ◌==◌};
ghost use Rattle.session_script.specs.declared.session.SetLine.{SetLine};
ghost use Rattle.session_script.specs.Playable.{IsPlayable};
ghost use Rattle.replay_core.specs.Signals.{inputs_at, uri_at, value_of, ports_at};
ghost use Rattle.replay_core.specs.Desk.{IsStrip};
ghost use Rattle.audio_api.specs.Outputs.{block_at, with_block};
ghost use Rattle.audio_api.specs.Sound.{silence, AreWhole};

use crate::mixer::Mixer;
use audio_api::{Front, Ins, Outs, Ports, StockPorts};
use lv_base::{Fixed, NoMemory};
use session_script::Session;
use std::alloc::Global;

/// The most ports that a code so far has.
const MOST_PORTS: usize = 3;

/// What stands ready for an instance: its ports, and the inputs that it is given.
#[derive(Debug, Drop)]
pub(crate) struct Strip {
    ports: StockPorts,
    ins: Ins,
}

impl Strip {
    /// The strip of an instance, with its control input set.
    pub fn new(alloc: Global, session: &Session, inst: u32) -> Result<Self, NoMemory>
        requires playable { IsPlayable session.now }
        requires there { inst < length session.now.insts }
        ensures { IfOk result (IsStrip session.now inst) }
    {
        let ports = StockPorts::of(&session.insts.as_slice()[inst as usize].uri);
        let mut ins = Ins::with_ports(alloc, ports.count, session.block)?;
        ins.set_value(ports.control, value(session, inst, ports.first));
        Ok(Strip { ports, ins })
    }

    /// Puts the mix of the instance's cables at its audio input, if it has one.
    pub fn fill(&mut self, session: &Session, inst: u32, mixer: &mut Mixer, outs: &Outs)
        requires playable { IsPlayable session.now }
        requires strip { IsStrip session.now inst self.old }
        requires room { length mixer.old ≡ session.now.block }
        requires places { length outs.now.blocks ≡ length session.now.insts }
        requires whole { AreWhole session.now.block outs.now.blocks }
        ensures inputs { self.new.ins ≡ inputs_at session.now outs.now.blocks inst }
        ensures strip { IsStrip session.now inst self.new }
        ensures room { length mixer.new ≡ session.now.block }
    {
        if let Some(port) = self.ports.audio_in {
            mixer.mix(session, outs, inst);
            self.ins.set_block(port, mixer.as_slice());
        }
    }

    /// Runs the front of an instance over its inputs. What it gives goes to the instance's place, which is silent before.
    pub fn run<F: Front>(&self, session: &Session, inst: u32, front: &mut F, outs: &mut Outs)
        requires strip { IsStrip session.now inst self.now }
        requires uri { F.uri_of front.old ≡ uri_at session.now inst }
        requires there { inst < length outs.old.blocks }
        requires silent { block_at outs.old inst ≡ silence session.now.block }
        ensures front { front.new ≡ (F.run_of front.old self.now.ins).0 }
        ensures outputs { outs.new ≡ with_block outs.old inst (F.run_of front.old self.now.ins).1 }
        ensures whole { length (F.run_of front.old self.now.ins).1 ≡ session.now.block }
        ensures uri { F.uri_of front.new ≡ F.uri_of front.old }
    {
        let places = [inst; MOST_PORTS];
        let places = &places[..self.ports.count as usize];
        let mut ports = Ports::over(&self.ins, places, outs);
        front.run(&mut ports);
    }
}

/// The value of an instance's control input: that of the last line that sets it.
fn value(session: &Session, inst: u32, first: Fixed) -> Fixed
    ensures { result
        ≡ fold (λ _ (set : SetLine). set.value) first
        (filter (λ (set : SetLine). set.inst == inst) session.now.sets) }
{
    session
        .sets
        .as_slice()
        .iter()
        .filter(|set| set.inst == inst)
        .fold(first, |_, set| set.value)
}
