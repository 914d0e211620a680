ghost use Rattle.std.specs.Prelude.{◌≡◌, ◌<◌, length, slice_set, IfOk};
ghost use Rattle.session_script.specs.Playable.{IsPlayable};
ghost use Rattle.audio_api.specs.Outputs.{silenced, block_at};
ghost use Rattle.audio_api.specs.Sound.{silence};
ghost use Rattle.replay_core.specs.Signals.{inputs_at, uri_at};
ghost use Rattle.replay_core.specs.Play.{silent_signals};
ghost use Rattle.replay_core.specs.Desk.{IsReady};

use crate::mixer::Mixer;
use crate::strip::Strip;
use audio_api::{Front, Outs};
use lv_base::NoMemory;
use session_script::Session;
use std::alloc::Global;

/// Where the signals of a block are: a strip and a place for each instance, and room to mix. It is used again for each
/// block, and takes no memory then.
#[derive(Debug, Drop)]
pub(crate) struct Desk {
    strips: Vec<Strip>,
    outs: Outs,
    mixer: Mixer,
}

impl Desk {
    /// The desk of a session, silent.
    pub fn new(alloc: Global, session: &Session) -> Result<Self, NoMemory>
        requires { IsPlayable session.now }
        ensures ready { IfOk result (IsReady session.now) }
        ensures silent { IfOk result (λ desk. desk.outs.blocks ≡ silent_signals session.now) }
    {
        let count = session.insts.len() as u32;
        let mut strips = Vec::with_capacity(alloc, count as usize)?;
        for inst in 0..count {
            strips.push(Strip::new(alloc, session, inst)?)?;
        }
        let outs = Outs::with_room(alloc, count, session.block, 0)?;
        let mixer = Mixer::new(alloc, session.block)?;
        Ok(Desk {
            strips,
            outs,
            mixer,
        })
    }

    /// The signals of the block, a place for each instance.
    pub fn outs(&self) -> &Outs
        ensures { result.now ≡ self.now.outs }
    {
        &self.outs
    }

    /// Makes every signal silent.
    pub fn silence(&mut self, session: &Session)
        requires { IsReady session.now self.old }
        ensures silent { self.new.outs.blocks ≡ silent_signals session.now }
        ensures ready { IsReady session.now self.new }
    {
        self.outs.silence();
    }

    /// Runs the front of an instance on the signals of the block so far, and keeps the signal that it gives.
    pub fn run<F: Front>(&mut self, session: &Session, inst: u32, front: &mut F)
        requires playable { IsPlayable session.now }
        requires ready { IsReady session.now self.old }
        requires there { inst < length session.now.insts }
        requires uri { F.uri_of front.old ≡ uri_at session.now inst }
        requires silent { block_at self.old.outs inst ≡ silence session.now.block }
        ensures front { front.new ≡ (F.run_of front.old (inputs_at session.now self.old.outs.blocks inst)).0 }
        ensures signals { self.new.outs.blocks
            ≡ slice_set self.old.outs.blocks inst (F.run_of front.old (inputs_at session.now self.old.outs.blocks inst)).1 }
        ensures ready { IsReady session.now self.new }
        ensures uri { F.uri_of front.new ≡ F.uri_of front.old }
    {
        let strip = &mut self.strips[inst as usize];
        strip.fill(session, inst, &mut self.mixer, &self.outs);
        strip.run(session, inst, front, &mut self.outs);
    }
}
