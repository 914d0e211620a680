ghost use Rattle.std.specs.Prelude.{◌≡◌, find, is_some};
ghost use Rattle.std.specs.Option.{option_copied};
ghost use Rattle.graph_order.specs.Answer.{fault_at};
ghost use Rattle.graph_order.specs.Lines as spec;

use crate::fault::GraphFault;
use crate::ports::{fits, is_control, is_signal, port_at};
use plugin_decl::{Decl, Port, patch_port};
use session_script::{Action, CableLine, Deed, OutLine, Session, SetLine};

/// The rules of a line. Of several that it breaks, the first in this order counts.
#[derive(Clone, Copy)]
pub(crate) enum LineRule {
    NoPort,
    Direction,
    Kind,
    NoPatch,
    NoState,
}

/// A line that breaks a rule.
#[derive(Clone, Copy)]
pub(crate) struct Broken {
    pub(crate) line: u32,
    pub(crate) rule: LineRule,
}

impl Broken {
    pub(crate) fn fault(self) -> GraphFault
        ensures { result ≡ fault_at self.rule self.line }
    {
        match self.rule {
            LineRule::NoPort => GraphFault::NoPort(self.line),
            LineRule::Direction => GraphFault::Direction(self.line),
            LineRule::Kind => GraphFault::Kind(self.line),
            LineRule::NoPatch => GraphFault::NoPatch(self.line),
            LineRule::NoState => GraphFault::NoState(self.line),
        }
    }
}

/// The first line of a session that breaks a rule.
#[tactic(auto, unfolding(crate::specs::Lines::first_broken))]
pub(crate) fn first_broken(session: &Session, decls: &[Decl]) -> Option<Broken>
    ensures { result ≡ spec.first_broken session.now decls.now }
{
    if let Some(broken) = first_set(session.sets.as_slice(), decls) {
        return Some(broken);
    }
    if let Some(broken) = first_cable(session.cables.as_slice(), decls) {
        return Some(broken);
    }
    if let Some(broken) = first_out(session.outs.as_slice(), decls) {
        return Some(broken);
    }
    first_action(session.actions.as_slice(), decls)
}

fn first_set(sets: &[SetLine], decls: &[Decl]) -> Option<Broken>
    ensures { result ≡ spec.first_in (spec.broken_set decls.now) sets.now }
{
    broken_set(decls, find_set(sets, decls)?)
}

fn find_set<'a>(sets: &'a [SetLine], decls: &[Decl]) -> Option<&'a SetLine>
    ensures { option_copied result ≡ find (λ set. is_some (spec.broken_set decls.now set)) sets.now }
{
    sets.iter().find(|set| broken_set(decls, set).is_some())
}

fn first_cable(cables: &[CableLine], decls: &[Decl]) -> Option<Broken>
    ensures { result ≡ spec.first_in (spec.broken_cable decls.now) cables.now }
{
    broken_cable(decls, find_cable(cables, decls)?)
}

fn find_cable<'a>(cables: &'a [CableLine], decls: &[Decl]) -> Option<&'a CableLine>
    ensures { option_copied result ≡ find (λ cable. is_some (spec.broken_cable decls.now cable)) cables.now }
{
    cables
        .iter()
        .find(|cable| broken_cable(decls, cable).is_some())
}

fn first_out(outs: &[OutLine], decls: &[Decl]) -> Option<Broken>
    ensures { result ≡ spec.first_in (spec.broken_out decls.now) outs.now }
{
    broken_out(decls, find_out(outs, decls)?)
}

fn find_out<'a>(outs: &'a [OutLine], decls: &[Decl]) -> Option<&'a OutLine>
    ensures { option_copied result ≡ find (λ out. is_some (spec.broken_out decls.now out)) outs.now }
{
    outs.iter().find(|out| broken_out(decls, out).is_some())
}

fn first_action(actions: &[Action], decls: &[Decl]) -> Option<Broken>
    ensures { result ≡ spec.first_in (spec.broken_action decls.now) actions.now }
{
    broken_action(decls, find_action(actions, decls)?)
}

fn find_action<'a>(actions: &'a [Action], decls: &[Decl]) -> Option<&'a Action>
    ensures { option_copied result ≡ find (λ action. is_some (spec.broken_action decls.now action)) actions.now }
{
    actions
        .iter()
        .find(|action| broken_action(decls, action).is_some())
}

fn broken_set(decls: &[Decl], set: &SetLine) -> Option<Broken>
    ensures { result ≡ spec.broken_set decls.now set.now }
{
    let rule = control_rule(port_at(decls, set.inst, &set.symbol))?;
    Some(Broken {
        line: set.line,
        rule,
    })
}

fn broken_cable(decls: &[Decl], cable: &CableLine) -> Option<Broken>
    ensures { result ≡ spec.broken_cable decls.now cable.now }
{
    let output = port_at(decls, cable.source, &cable.output);
    let input = port_at(decls, cable.target, &cable.input);
    let rule = cable_rule(output, input)?;
    Some(Broken {
        line: cable.line,
        rule,
    })
}

fn broken_out(decls: &[Decl], out: &OutLine) -> Option<Broken>
    ensures { result ≡ spec.broken_out decls.now out.now }
{
    let rule = channel_rule(port_at(decls, out.inst, &out.symbol))?;
    Some(Broken {
        line: out.line,
        rule,
    })
}

fn broken_action(decls: &[Decl], action: &Action) -> Option<Broken>
    ensures { result ≡ spec.broken_action decls.now action.now }
{
    let rule = deed_rule(decls, action.inst, &action.deed)?;
    Some(Broken {
        line: action.line,
        rule,
    })
}

fn direction_then_kind(direction: bool, kind: bool) -> Option<LineRule>
    ensures { result ≡ spec.direction_then_kind direction kind }
{
    if !direction {
        Some(LineRule::Direction)
    } else if !kind {
        Some(LineRule::Kind)
    } else {
        None
    }
}

/// A value is set at a control input.
fn control_rule(port: Option<&Port>) -> Option<LineRule>
    ensures { result ≡ spec.control_rule (option_copied port.entry) }
{
    match port {
        Some(port) => direction_then_kind(port.input, is_control(port.kind)),
        None => Some(LineRule::NoPort),
    }
}

/// What is heard is an audio or CV output.
fn channel_rule(port: Option<&Port>) -> Option<LineRule>
    ensures { result ≡ spec.channel_rule (option_copied port.entry) }
{
    match port {
        Some(port) => direction_then_kind(!port.input, is_signal(port.kind)),
        None => Some(LineRule::NoPort),
    }
}

/// A cable leads from an output to an input of the same kind.
fn cable_rule(output: Option<&Port>, input: Option<&Port>) -> Option<LineRule>
    ensures { result ≡ spec.cable_rule (option_copied output.entry) (option_copied input.entry) }
{
    let Some(output) = output else {
        return Some(LineRule::NoPort);
    };
    let Some(input) = input else {
        return Some(LineRule::NoPort);
    };
    direction_then_kind(!output.input && input.input, fits(output.kind, input.kind))
}

/// The first rule that a deed breaks.
fn deed_rule(decls: &[Decl], inst: u32, deed: &Deed) -> Option<LineRule>
    ensures { result ≡ spec.deed_rule decls.now inst deed.now }
{
    match deed {
        Deed::Set { symbol, .. } => control_rule(port_at(decls, inst, symbol)),
        Deed::PatchFixed { .. } | Deed::PatchInt { .. } | Deed::PatchGet { .. } => patch_rule(
            decls.get(inst as usize),
        ),
        Deed::Save | Deed::Restore { .. } => state_rule(decls.get(inst as usize)),
    }
}

/// A message goes to an instance with a port for it.
fn patch_rule(decl: Option<&Decl>) -> Option<LineRule>
    ensures { result ≡ spec.patch_rule (option_copied decl.entry) }
{
    match decl {
        Some(decl) => match patch_port(decl) {
            Some(_) => None,
            None => Some(LineRule::NoPatch),
        },
        None => Some(LineRule::NoPatch),
    }
}

/// A state is that of an instance with `state:interface`.
fn state_rule(decl: Option<&Decl>) -> Option<LineRule>
    ensures { result ≡ spec.state_rule (option_copied decl.entry) }
{
    match decl {
        Some(decl) => if decl.state {
            None
        } else {
            Some(LineRule::NoState)
        },
        None => Some(LineRule::NoState),
    }
}
