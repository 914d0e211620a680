ghost use Rattle.std.specs.Prelude.{◌≡◌, ◌++◌, OnOk};
ghost use Rattle.plugin_list.specs.Listing.{direction_text, kind_text, flow_text, port_line, plugin_line, plugin_lines, count_line};

use lv_base::{Bytes, NoMemory};
use plugin_decl::{Decl, Port, PortKind};

/// Adds the line `plugin URI MINOR MICRO`, and for each port, in order of index, `port INDEX SYMBOL DIRECTION CLASS`.
///
/// The numbers are decimal. The direction is `input` or `output`, the class `audio`, `cv`, `control`, `atom` or `unsupported`. Each
/// line ends with a line feed. After a refusal `into` may hold a part of the lines.
pub fn push_plugin(into: &mut Bytes, plugin: &Decl) -> Result<(), NoMemory>
    ensures { OnOk result (into.new ≡ into.old ++ plugin_lines plugin.now) }
{
    push_head(into, plugin)?;
    for port in plugin.ports.as_slice() {
        push_port(into, port)?;
    }
    Ok(())
}

/// Adds the line `plugins N`, with its line feed. After a refusal `into` may hold a part of it.
pub fn push_count(into: &mut Bytes, count: usize) -> Result<(), NoMemory>
    ensures { OnOk result (into.new ≡ into.old ++ count_line count) }
{
    into.push_str("plugins ")?;
    into.push_decimal(count as u64)?;
    into.push_str("\n")
}

fn push_head(into: &mut Bytes, plugin: &Decl) -> Result<(), NoMemory>
    ensures { OnOk result (into.new ≡ into.old ++ plugin_line plugin.now) }
{
    into.push_str("plugin ")?;
    into.push_str(plugin.uri.as_str())?;
    into.push_str(" ")?;
    into.push_decimal(u64::from(plugin.minor))?;
    into.push_str(" ")?;
    into.push_decimal(u64::from(plugin.micro))?;
    into.push_str("\n")
}

fn push_port(into: &mut Bytes, port: &Port) -> Result<(), NoMemory>
    ensures { OnOk result (into.new ≡ into.old ++ port_line port.now) }
{
    into.push_str("port ")?;
    into.push_decimal(u64::from(port.index))?;
    into.push_str(" ")?;
    into.push_str(port.symbol.as_str())?;
    push_flow(into, port)?;
    into.push_str("\n")
}

// Which way what class of data goes.
fn push_flow(into: &mut Bytes, port: &Port) -> Result<(), NoMemory>
    ensures { OnOk result (into.new ≡ into.old ++ flow_text port.now) }
{
    into.push_str(" ")?;
    into.push_str(direction(port.input))?;
    into.push_str(" ")?;
    into.push_str(class(port.kind))
}

fn direction(input: bool) -> &'static str
    ensures { result.now ≡ direction_text input }
{
    if input { "input" } else { "output" }
}

fn class(kind: PortKind) -> &'static str
    ensures { result.now ≡ kind_text kind }
{
    match kind {
        PortKind::Audio => "audio",
        PortKind::Cv => "cv",
        PortKind::Control => "control",
        PortKind::Atom => "atom",
        PortKind::Unsupported => "unsupported",
    }
}
