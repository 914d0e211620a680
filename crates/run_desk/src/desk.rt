ghost use Rattle.std.specs.Prelude.{◌≡◌, IfOk};
ghost use Rattle.graph_order.specs.Setup.{IsReady};
ghost use Rattle.play_known.specs.Known.{Known};
ghost use Rattle.run_summary.specs.Tallies.{Tallies};
ghost use Rattle.run_desk.specs.Shown.{ShowDesk, IsFresh};

use arrayvec::ArrayVec;
use block_signals::{Channels, Inlets, Outlets};
use graph_order::Setup;
use held_bodies::Bodies;
use judged_log::JudgedLog;
use lv_base::NoMemory;
use run_notices::Notices;
use run_outcome::Outcome;
use run_summary::Tally;
use std::alloc::Global;
use urid_map::Urids;

/// What a run on one thread holds besides its instances.
#[derive(Drop)]
pub struct Desk {
    /// The entries so far, judged.
    pub log: JudgedLog,
    pub tally: Tally,
    pub bodies: Bodies,
    pub inlets: Inlets,
    pub outlets: Outlets,
    pub channels: Channels,
    /// The notices that audio has still to tell.
    pub untold: Notices,
    pub urids: Urids,
    pub outcome: Outcome,
}

impl Desk {
    /// All that a run needs once its instances are active: nothing was played yet.
    pub fn new<F, B>(
        alloc: Global,
        setup: &Setup,
        log: JudgedLog,
        tally: Tally,
        urids: Urids,
    ) -> Result<Self, NoMemory>
        requires { IsReady setup.now }
        ensures log { IfOk result (λ desk. desk.log ≡ log) }
        ensures urids { IfOk result (λ desk. desk.urids ≡ urids) }
        ensures shown { IfOk result (λ desk. (k : Known F B) → IsFresh k → Tallies setup.now k.history k.failures tally → ShowDesk setup.now k desk) }
    {
        let bodies = Bodies::new(alloc, setup.decls.len())?;
        let inlets = Inlets::new(alloc, setup)?;
        let outlets = Outlets::new(alloc, setup)?;
        let channels = Channels::new(alloc, setup)?;
        let outcome = Outcome::new(alloc, setup)?;
        Ok(Desk {
            log,
            tally,
            bodies,
            inlets,
            outlets,
            channels,
            untold: ArrayVec::new(),
            urids,
            outcome,
        })
    }
}
