ghost use Rattle.host_main.specs.CheckStatus.{check_line, load_line, undeclared_line, turtle_at, turtle_line};
ghost use Rattle.lv_outside.specs.World.{IsSaid};
ghost use Rattle.host_main.specs.GoesOn.{SinkGoesOn};

use crate::checking::refusal::CheckRefusal;
use crate::say::{put_line, put_pieces, say_no_memory};
use itoa::Buffer;
use lv_base::{Bytes, Text};
use lv_outside::{Put, Sink};
use session_load::LoadFault;
use turtle_lex::LexFault;
use turtle_read::TurtleFault;

/// Puts the line of a refusal of `check BUNDLE` on the sink, up to the first piece that fails. It
/// takes no memory, so it never changes the answer.
pub fn say<K: Sink>(refusal: &CheckRefusal, out: &mut K)
    ensures said { IsSaid (K.state out.old) (K.state out.new) (check_line refusal.now) }
    ensures goes_on { SinkGoesOn (K.state out.old) (K.state out.new) }
{
    match refusal {
        CheckRefusal::Load(fault) => say_load(fault, out),
        CheckRefusal::Undeclared { uri, rule } => say_undeclared(uri, rule, out),
        CheckRefusal::WriteFailed => put_line(out, "lv2fx: 4 write failed ", "-", "\n"),
    }
}

// The line of a bundle that can't be loaded.
fn say_load<K: Sink>(fault: &LoadFault, out: &mut K)
    ensures said { IsSaid (K.state out.old) (K.state out.new) (load_line fault.now) }
    ensures goes_on { SinkGoesOn (K.state out.old) (K.state out.new) }
{
    match fault {
        LoadFault::Missing(path) => put_line(out, "lv2fx: 2 missing ", path.as_str(), "\n"),
        LoadFault::ReadFailed(path) => {
            put_line(out, "lv2fx: 3 read failed ", path.as_str(), "\n");
        }
        LoadFault::TooLong(_) => put_line(out, "lv2fx: 9 limit file ", "16777216", "\n"),
        LoadFault::Turtle { path, fault } => say_turtle(path, *fault, out),
        LoadFault::NoMemory => say_no_memory(out),
    }
}

// The line of a file that is no document.
fn say_turtle<K: Sink>(path: &Text, fault: TurtleFault, out: &mut K)
    ensures said { IsSaid (K.state out.old) (K.state out.new) (turtle_line path.now fault) }
    ensures goes_on { SinkGoesOn (K.state out.old) (K.state out.new) }
{
    match fault {
        TurtleFault::Lex(LexFault::NotUtf8(at)) => say_at(path, at, " utf8\n", out),
        TurtleFault::Lex(LexFault::Unclosed(at)) => say_at(path, at, " unclosed\n", out),
        TurtleFault::Lex(LexFault::BadByte(at)) => say_at(path, at, " byte\n", out),
        TurtleFault::Syntax(at) => say_at(path, at, " syntax\n", out),
        TurtleFault::NoPrefix(at) => say_at(path, at, " prefix\n", out),
        TurtleFault::BadIri(at) => say_at(path, at, " iri\n", out),
        TurtleFault::Depth(at) => say_at(path, at, " depth\n", out),
        TurtleFault::StoreFull(at) => say_at(path, at, " full\n", out),
        TurtleFault::NoMemory => say_no_memory(out),
    }
}

fn say_at<K: Sink>(path: &Text, at: usize, kind: &str, out: &mut K)
    ensures said { IsSaid (K.state out.old) (K.state out.new) (turtle_at path.now at kind.now) }
    ensures goes_on { SinkGoesOn (K.state out.old) (K.state out.new) }
{
    if out.put("lv2fx: 5 turtle ".as_bytes()) == Put::Failed {
        return;
    }
    if out.put(path.as_bytes()) == Put::Failed {
        return;
    }
    let mut digits = Buffer::new();
    put_line(out, " at ", digits.format(at), kind);
}

// The line of a plug-in whose declaration breaks a rule.
fn say_undeclared<K: Sink>(uri: &Text, rule: &Bytes, out: &mut K)
    ensures said { IsSaid (K.state out.old) (K.state out.new) (undeclared_line uri.now rule.now) }
    ensures goes_on { SinkGoesOn (K.state out.old) (K.state out.new) }
{
    if out.put("lv2fx: 6 plugin ".as_bytes()) == Put::Failed {
        return;
    }
    if out.put(uri.as_bytes()) == Put::Failed {
        return;
    }
    put_pieces(out, " ".as_bytes(), rule.as_slice(), "\n".as_bytes());
}
