ghost use Rattle.std.specs.Prelude.{◌≡◌, ◌++◌, filter, OnOk};
ghost use Rattle.std.specs.Fmt.{signed_decimal};
ghost use Rattle.session_play.specs.Setup as setups;
ghost use Rattle.play_outcome.specs.Summary as summary;
ghost use Rattle.run_summary.specs.Parts as parts;

use crate::counter::{InstTally, one_more_if};
use crate::report::Report;
use crate::tally::Tally;
use graph_order::Setup;
use itoa::Buffer;
use lv_base::{Bytes, Fixed, NoMemory};
use plugin_decl::{Port, PortKind};
use session_script::{Action, Deed, Session};

/// Adds the summary of a run under a command's name.
pub fn write_summary(
    text: &mut Bytes,
    command: &str,
    setup: &Setup,
    tally: &Tally,
    report: &Report,
) -> Result<(), NoMemory>
    ensures { OnOk result (text.new ≡ text.old ++ parts.summary_text setup.now command.now tally.now report.now) }
{
    push_head(text, command, &setup.session)?;
    push_insts(text, setup, tally, report)?;
    text.push_all(report.notices.as_slice())?;
    push_restores(text, setup, report)?;
    push_last(text, setup, tally, report)
}

fn push_head(text: &mut Bytes, command: &str, session: &Session) -> Result<(), NoMemory>
    ensures { OnOk result (text.new ≡ text.old ++ parts.head_lines session.now command.now) }
{
    text.push_str("lv2fx ")?;
    text.push_str(command)?;
    text.push_str("\n")?;
    push_size(text, session)
}

fn push_size(text: &mut Bytes, session: &Session) -> Result<(), NoMemory>
    ensures { OnOk result (text.new ≡ text.old ++ summary.size_line session.now) }
{
    let frames = u64::from(session.block) * u64::from(session.blocks);
    push_count(text, "frames ", frames)?;
    push_count_line(text, " channels ", session.outs.len() as u64)
}

// ---- instances

fn push_insts(
    text: &mut Bytes,
    setup: &Setup,
    tally: &Tally,
    report: &Report,
) -> Result<(), NoMemory>
    ensures { OnOk result (text.new ≡ text.old ++ parts.lines_from setup.now tally.now report.now 0 setup.now.session.insts) }
{
    for inst in 0..setup.session.insts.len() {
        push_inst(text, setup, tally, report, inst)?;
    }
    Ok(())
}

fn push_inst(
    text: &mut Bytes,
    setup: &Setup,
    tally: &Tally,
    report: &Report,
    inst: usize,
) -> Result<(), NoMemory>
    ensures { OnOk result (text.new ≡ text.old ++ parts.inst_lines setup.now tally.now report.now inst) }
{
    let name = name_of(setup, inst);
    push_counts(text, name, tally.of(inst))?;
    push_values(text, name, ports_of(setup, inst), values_at(report, inst))
}

fn push_counts(text: &mut Bytes, name: &str, counts: InstTally) -> Result<(), NoMemory>
    ensures { OnOk result (text.new ≡ text.old ++ parts.inst_line name.now counts) }
{
    text.push_str("inst ")?;
    text.push_str(name)?;
    push_count(text, " runs ", counts.runs)?;
    push_jobs(text, counts)?;
    push_responses(text, counts)?;
    push_count_line(text, " errors ", counts.errors)
}

fn push_jobs(text: &mut Bytes, counts: InstTally) -> Result<(), NoMemory>
    ensures { OnOk result (text.new ≡ text.old ++ parts.jobs_part counts) }
{
    push_count(text, " jobs ", counts.jobs)?;
    push_count(text, " refused ", counts.refused)?;
    push_count(text, " worked ", counts.worked)
}

fn push_responses(text: &mut Bytes, counts: InstTally) -> Result<(), NoMemory>
    ensures { OnOk result (text.new ≡ text.old ++ parts.responses_part counts) }
{
    push_count(text, " responses ", counts.responses)?;
    push_count(text, " dropped ", counts.dropped)?;
    push_count(text, " delivered ", counts.delivered)
}

fn push_values(
    text: &mut Bytes,
    name: &str,
    ports: &[Port],
    values: &[Fixed],
) -> Result<(), NoMemory>
    ensures { OnOk result (text.new ≡ text.old ++ parts.value_lines name.now (filter summary.is_shown ports.now) values.now) }
{
    let mut left = values;
    for port in ports {
        push_shown(text, name, port, left)?;
        left = values_after(port, left);
    }
    Ok(())
}

/// Adds the line of a port, if it is shown, with the first of these values.
fn push_shown(text: &mut Bytes, name: &str, port: &Port, values: &[Fixed]) -> Result<(), NoMemory>
    ensures { OnOk result (text.new ≡ text.old ++ parts.shown_line name.now port.now values.now) }
{
    match values.first() {
        Some(value) if is_shown(port) => push_value(text, name, port, *value),
        _ => Ok(()),
    }
}

/// The values that are left after those of a port.
fn values_after<'a>(port: &Port, values: &'a [Fixed]) -> &'a [Fixed]
    ensures { result.now ≡ parts.values_after port.now values.now }
{
    match values.split_first() {
        Some((_, rest)) if is_shown(port) => rest,
        _ => values,
    }
}

fn push_value(text: &mut Bytes, name: &str, port: &Port, value: Fixed) -> Result<(), NoMemory>
    ensures { OnOk result (text.new ≡ text.old ++ parts.value_line name.now port.now.symbol value) }
{
    text.push_str("value ")?;
    text.push_str(name)?;
    text.push_str(" ")?;
    text.push_str(port.symbol.as_str())?;
    push_parts(text, value)
}

fn push_parts(text: &mut Bytes, value: Fixed) -> Result<(), NoMemory>
    ensures { OnOk result (text.new ≡ text.old ++ parts.value_end value) }
{
    let mut digits = Buffer::new();
    text.push_str(" ")?;
    text.push_str(digits.format(value.0))?;
    text.push_str("\n")
}

/// Whether the value of a port is told: it is a control output.
fn is_shown(port: &Port) -> bool
    ensures { result ≡ summary.is_shown port.now }
{
    !port.input && matches!(port.kind, PortKind::Control)
}

fn name_of(setup: &Setup, inst: usize) -> &str
    ensures { result.now ≡ summary.name_of setup.now inst }
{
    match setup.session.insts.get(inst) {
        Some(it) => it.name.as_str(),
        None => "",
    }
}

fn ports_of(setup: &Setup, inst: usize) -> &[Port]
    ensures { result.now ≡ setups.ports_of setup.now inst }
{
    match setup.decls.get(inst) {
        Some(decl) => decl.ports.as_slice(),
        None => &[],
    }
}

fn values_at(report: &Report, inst: usize) -> &[Fixed]
    ensures { result.now ≡ parts.values_at report.now inst }
{
    match report.values.get(inst) {
        Some(values) => values.as_slice(),
        None => &[],
    }
}

// ---- actions

fn push_restores(text: &mut Bytes, setup: &Setup, report: &Report) -> Result<(), NoMemory>
    ensures { OnOk result (text.new ≡ text.old ++ parts.restores_from setup.now report.now 0 setup.now.session.actions) }
{
    let actions = setup.session.actions.as_slice();
    for (place, action) in actions.iter().enumerate() {
        push_restore(text, setup, action.inst as usize, status_at(report, place))?;
    }
    Ok(())
}

fn push_restore(
    text: &mut Bytes,
    setup: &Setup,
    inst: usize,
    status: Option<u8>,
) -> Result<(), NoMemory>
    ensures { OnOk result (text.new ≡ text.old ++ summary.restore_line setup.now inst status) }
{
    let Some(status) = status else {
        return Ok(());
    };
    text.push_str("restore ")?;
    text.push_str(name_of(setup, inst))?;
    push_count_line(text, " ", u64::from(status))
}

fn status_at(report: &Report, action: usize) -> Option<u8>
    ensures { result ≡ parts.status_at report.now action }
{
    match report.statuses.get(action) {
        Some(status) => *status,
        None => None,
    }
}

/// How many actions sent a value or a message that audio didn't take.
fn late_among(tally: &Tally, actions: &[Action]) -> u64
    ensures { result ≡ parts.late_from tally.now 0 actions.now }
{
    let mut late = 0;
    for (place, action) in actions.iter().enumerate() {
        late = one_more_if(is_late(tally, place, action), late);
    }
    late
}

fn is_late(tally: &Tally, place: usize, action: &Action) -> bool
    ensures { result ≡ parts.is_late tally.now place action.now }
{
    sends_input(&action.deed) && !tally.took(place)
}

fn sends_input(deed: &Deed) -> bool
    ensures { result ≡ parts.sends_input deed.now }
{
    match deed {
        Deed::Set { .. } | Deed::PatchFixed { .. } | Deed::PatchInt { .. } => true,
        Deed::PatchGet { .. } => true,
        Deed::Save | Deed::Restore { .. } => false,
    }
}

// ---- counts

fn push_last(
    text: &mut Bytes,
    setup: &Setup,
    tally: &Tally,
    report: &Report,
) -> Result<(), NoMemory>
    ensures { OnOk result (text.new ≡ text.old ++ parts.last_lines setup.now tally.now report.now) }
{
    push_count_line(text, "saves ", report.saves as u64)?;
    let late = late_among(tally, setup.session.actions.as_slice());
    push_count_line(text, "late ", late)?;
    push_count_line(text, "lost ", tally.lost)?;
    push_count_line(text, "entries ", tally.entries)
}

fn push_count_line(text: &mut Bytes, name: &str, count: u64) -> Result<(), NoMemory>
    ensures { OnOk result (text.new ≡ text.old ++ summary.count_line name.now count) }
{
    push_count(text, name, count)?;
    text.push_str("\n")
}

fn push_count(text: &mut Bytes, name: &str, count: u64) -> Result<(), NoMemory>
    ensures { OnOk result (text.new ≡ text.old ++ summary.counted name.now count) }
{
    text.push_str(name)?;
    text.push_decimal(count)
}
