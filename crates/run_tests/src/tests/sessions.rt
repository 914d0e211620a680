ghost use Rattle.std.specs.Prelude.{◌≡◌, ◌≤◌, ◌<◌, All, true};
ghost use Rattle.session_script.specs.declared.session.Inst.{Inst};
ghost use Rattle.session_script.specs.declared.session.SetLine.{SetLine};
ghost use Rattle.session_script.specs.declared.session.CableLine.{CableLine};
ghost use Rattle.session_script.specs.declared.session.OutLine.{OutLine};
ghost use Rattle.session_script.specs.Stock.{IsStockUri};
ghost use Rattle.session_script.specs.Playable.{IsPlayable, LeadsOn};

use lv_base::{Fixed, Items, NoMemory, Text};
use session_script::{CableLine, Inst, OutLine, Session, SetLine};
use std::alloc::Global;

/// What a session of the tests has: names and URIs, values by instance, cables from one instance to another, channels.
#[derive(Clone, Copy)]
pub struct Plan<'a> {
    pub block: u32,
    pub blocks: u32,
    pub insts: &'a [(&'a str, &'a str)],
    pub sets: &'a [(u32, i64)],
    pub cables: &'a [(u32, u32)],
    pub outs: &'a [u32],
}

pub fn session(alloc: Global, plan: &Plan<'_>) -> Result<Session, NoMemory> {
    Ok(Session {
        rate: 48000,
        block: plan.block,
        blocks: plan.blocks,
        workers: 1,
        cells: 8,
        reserve: None,
        bundles: Items::new(alloc),
        insts: insts(alloc, plan.insts)?,
        sets: sets(alloc, plan.sets)?,
        cables: cables(alloc, plan.cables)?,
        outs: outs(alloc, plan.outs)?,
        actions: Items::new(alloc),
    })
}

fn insts(alloc: Global, plan: &[(&str, &str)]) -> Result<Items<Inst>, NoMemory> {
    let mut insts = Items::new(alloc);
    for (name, uri) in plan {
        insts.push(Inst {
            name: Text::from_str(alloc, name)?,
            uri: Text::from_str(alloc, uri)?,
            worker: None,
            line: 1,
        })?;
    }
    Ok(insts)
}

fn sets(alloc: Global, plan: &[(u32, i64)]) -> Result<Items<SetLine>, NoMemory> {
    let mut sets = Items::new(alloc);
    for (inst, value) in plan {
        sets.push(SetLine {
            inst: *inst,
            symbol: Text::from_str(alloc, "value")?,
            value: Fixed(*value),
            line: 1,
        })?;
    }
    Ok(sets)
}

fn cables(alloc: Global, plan: &[(u32, u32)]) -> Result<Items<CableLine>, NoMemory> {
    let mut cables = Items::new(alloc);
    for (source, target) in plan {
        cables.push(CableLine {
            source: *source,
            output: Text::from_str(alloc, "out")?,
            target: *target,
            input: Text::from_str(alloc, "in")?,
            delayed: false,
            line: 1,
        })?;
    }
    Ok(cables)
}

fn outs(alloc: Global, plan: &[u32]) -> Result<Items<OutLine>, NoMemory> {
    let mut outs = Items::new(alloc);
    for inst in plan {
        outs.push(OutLine {
            inst: *inst,
            symbol: Text::from_str(alloc, "out")?,
            line: 1,
        })?;
    }
    Ok(outs)
}

/// Whether a session keeps what one keeps whose every line can be played.
pub fn is_playable(session: &Session) -> bool
    ensures { result ≡ true → IsPlayable session.now }
{
    let count = session.insts.len();
    1 <= session.block
        && session.block <= 4096
        && session.blocks <= 1024
        && count <= 32
        && session.cables.len() <= 256
        && session.outs.len() <= 8
        && are_stock(session.insts.as_slice())
        && are_set(session.sets.as_slice(), count)
        && lead_on(session.cables.as_slice(), count)
        && are_heard(session.outs.as_slice(), count)
}

fn are_stock(insts: &[Inst]) -> bool
    ensures { result ≡ true → All (λ (inst : Inst). IsStockUri inst.uri) insts.now }
{
    insts.iter().all(|inst| is_stock(&inst.uri))
}

fn is_stock(uri: &Text) -> bool
    ensures { result ≡ true → IsStockUri uri.now }
{
    uri.as_str() == "urn:lv2fx:const" || uri.as_str() == "urn:lv2fx:amp"
}

fn are_set(sets: &[SetLine], count: usize) -> bool
    ensures { result ≡ true → All (λ (set : SetLine). set.inst < count) sets.now }
{
    sets.iter().all(|set| (set.inst as usize) < count)
}

fn lead_on(cables: &[CableLine], count: usize) -> bool
    ensures { result ≡ true → All (LeadsOn count) cables.now }
{
    cables.iter().all(|cable| cable.source < cable.target && (cable.target as usize) < count)
}

fn are_heard(outs: &[OutLine], count: usize) -> bool
    ensures { result ≡ true → All (λ (out : OutLine). out.inst < count) outs.now }
{
    outs.iter().all(|out| (out.inst as usize) < count)
}
