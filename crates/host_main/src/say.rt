ghost use Rattle.std.specs.Prelude.{◌≡◌, ◌++◌, ℕ, List};
ghost use Rattle.host_main.specs.Status.{line_of, usage_line, no_memory_line, rule_end, limit_front};
ghost use Rattle.lv_outside.specs.World.{IsSaid};
ghost use Rattle.host_main.specs.GoesOn.{SinkGoesOn};

use crate::refusal::{Refusal, Target};
use itoa::Buffer;
use lv_base::Text;
use lv_outside::{Put, Sink};
use session_script::{Limit, ScriptRule};

const USAGE: &str =
    "lv2fx: 1 usage: check BUNDLE | render SESSION OUT | play SESSION OUT | replay SESSION RECORD OUT | gen NUMBER OUT\n";

const SCRIPT_LINE: &str = "lv2fx: 7 script line ";

/// Puts the line that lists the commands.
pub fn say_usage<K: Sink>(out: &mut K)
    ensures said { IsSaid (K.state out.old) (K.state out.new) usage_line }
    ensures goes_on { SinkGoesOn (K.state out.old) (K.state out.new) }
{
    put_line(out, USAGE, "", "");
}

/// Puts the line of a refusal of `render SESSION NAME` on the sink, up to the first piece that fails. It takes no
/// memory, so it never changes the answer.
pub fn say<K: Sink>(refusal: Refusal, session: &Text, name: &Text, out: &mut K)
    ensures said { IsSaid (K.state out.old) (K.state out.new) (line_of session.now name.now refusal) }
    ensures goes_on { SinkGoesOn (K.state out.old) (K.state out.new) }
{
    let mut digits = Buffer::new();
    match refusal {
        Refusal::Usage => say_usage(out),
        Refusal::Missing => put_line(out, "lv2fx: 2 missing ", session.as_str(), "\n"),
        Refusal::ReadFailed => put_line(out, "lv2fx: 3 read failed ", session.as_str(), "\n"),
        Refusal::WriteFailed(target) => say_write_failed(target, name, out),
        Refusal::Script(line, rule) => {
            put_line(out, SCRIPT_LINE, digits.format(line), rule_end(rule));
        }
        Refusal::Later(line) => put_line(out, SCRIPT_LINE, digits.format(line), " later\n"),
        Refusal::Past(which, number) => {
            put_line(out, limit_front(which), digits.format(number), "\n");
        }
        Refusal::TooLong => put_line(out, "lv2fx: 9 limit file ", "16777216", "\n"),
        Refusal::NoMemory => say_no_memory(out),
    }
}

/// Puts the line of a want of memory.
pub(crate) fn say_no_memory<K: Sink>(out: &mut K)
    ensures said { IsSaid (K.state out.old) (K.state out.new) no_memory_line }
    ensures goes_on { SinkGoesOn (K.state out.old) (K.state out.new) }
{
    put_line(out, "lv2fx: 14 no memory\n", "", "");
}

fn say_write_failed<K: Sink>(target: Target, name: &Text, out: &mut K)
    ensures said { (session : List ℕ) → IsSaid (K.state out.old) (K.state out.new)
        (line_of session name.now (Refusal.WriteFailed target)) }
    ensures goes_on { SinkGoesOn (K.state out.old) (K.state out.new) }
{
    let front = "lv2fx: 4 write failed ";
    match target {
        Target::Record => put_line(out, front, name.as_str(), ".rec\n"),
        Target::Sound => put_line(out, front, name.as_str(), ".pcm\n"),
        Target::State => put_line(out, front, name.as_str(), ".ttl\n"),
        Target::Summary => put_line(out, front, "-", "\n"),
    }
}

// What ends the line of a rule.
fn rule_end(rule: ScriptRule) -> &'static str
    ensures { result.now ≡ rule_end rule }
{
    match rule {
        ScriptRule::Utf8 => " utf8\n",
        ScriptRule::Head => " head\n",
        ScriptRule::Word => " word\n",
        ScriptRule::Order => " order\n",
        ScriptRule::Twice => " twice\n",
        ScriptRule::Count => " count\n",
        ScriptRule::Number => " number\n",
        ScriptRule::Range => " range\n",
        ScriptRule::Name => " name\n",
        ScriptRule::Same => " same\n",
        ScriptRule::Unknown => " unknown\n",
        ScriptRule::Path => " path\n",
        ScriptRule::Iri => " iri\n",
        ScriptRule::Block => " block\n",
        ScriptRule::Form => " form\n",
    }
}

// What begins the line of a limit.
fn limit_front(which: Limit) -> &'static str
    ensures { result.now ≡ limit_front which }
{
    match which {
        Limit::Bundles => "lv2fx: 9 limit bundles ",
        Limit::Instances => "lv2fx: 9 limit instances ",
        Limit::Cables => "lv2fx: 9 limit cables ",
        Limit::Outputs => "lv2fx: 9 limit outputs ",
        Limit::Actions => "lv2fx: 9 limit actions ",
        Limit::Saves => "lv2fx: 9 limit saves ",
        Limit::Samples => "lv2fx: 9 limit samples ",
    }
}

pub(crate) fn put_line<K: Sink>(out: &mut K, front: &str, middle: &str, end: &str)
    ensures said { IsSaid (K.state out.old) (K.state out.new) (front.now ++ (middle.now ++ end.now)) }
    ensures goes_on { SinkGoesOn (K.state out.old) (K.state out.new) }
{
    put_pieces(out, front.as_bytes(), middle.as_bytes(), end.as_bytes());
}

// Puts three pieces, up to the first that fails.
pub(crate) fn put_pieces<K: Sink>(out: &mut K, front: &[u8], middle: &[u8], end: &[u8])
    ensures said { IsSaid (K.state out.old) (K.state out.new) (front.now ++ (middle.now ++ end.now)) }
    ensures goes_on { SinkGoesOn (K.state out.old) (K.state out.new) }
{
    if out.put(front) == Put::Failed {
        return;
    }
    if out.put(middle) == Put::Failed {
        return;
    }
    let _ = out.put(end);
}
