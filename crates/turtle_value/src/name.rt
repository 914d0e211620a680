ghost use Rattle.std.specs.Prelude.{◌≡◌, ◌++◌, IfOk, OnOk, filter, not, ◌==◌, encode_utf8_all};
ghost use Rattle.std.specs.List.{after_first};
ghost use Rattle.std.specs.Str.{chars};
ghost use Rattle.std.specs.String.{string_bytes};
ghost use Rattle.turtle_grammar.specs.Value.{prefix_of, local_of, tag_of};

use lv_base::{NoMemory, Text};
use std::alloc::Global;

/// The prefix of a prefixed name: what stands before its first colon.
pub fn prefix_text(name: &str) -> &str
    ensures { result.now ≡ prefix_of name.now }
{
    parts(name).0
}

/// The IRI of a prefixed name: its namespace and its local name, without the backslashes of escapes (PN_LOCAL_ESC [172s]).
pub fn expand(alloc: Global, namespace: &Text, name: &str) -> Result<Text, NoMemory>
    ensures { IfOk result (λ iri. iri ≡ namespace.now ++ local_of name.now) }
{
    let (_, local) = parts(name);
    let namespace = namespace.as_str();
    let mut iri = String::with_capacity(alloc, namespace.len().saturating_add(local.len()))?;
    iri.push_str(namespace)?;
    push_local(&mut iri, local)?;
    Text::from_string(iri)
}

/// A language tag without its `@`.
pub fn tag_text(alloc: Global, tag: &str) -> Result<Text, NoMemory>
    ensures { IfOk result (λ text. text ≡ tag_of tag.now) }
{
    let (_, language) = tag.split_once('@').unwrap_or((tag, ""));
    Text::from_str(alloc, language)
}

fn parts(name: &str) -> (&str, &str)
    ensures prefix { result.0.now ≡ prefix_of name.now }
    ensures local { result.1.now ≡ after_first (λ c. c == 58) name.now }
{
    name.split_once(':').unwrap_or((name, ""))
}

fn push_local(into: &mut String, local: &str) -> Result<(), NoMemory>
    ensures { OnOk result (string_bytes into.new ≡ string_bytes into.old ++ encode_utf8_all (filter (λ c. not (c == 92)) (chars local.now))) }
{
    match local.find('\\') {
        None => into.push_str(local)?,
        Some(_) => push_unescaped(into, local)?,
    }
    Ok(())
}

fn push_unescaped(into: &mut String, local: &str) -> Result<(), NoMemory>
    ensures { OnOk result (string_bytes into.new ≡ string_bytes into.old ++ encode_utf8_all (filter (λ c. not (c == 92)) (chars local.now))) }
{
    for c in local.chars() {
        if c != '\\' {
            into.push(c)?;
        }
    }
    Ok(())
}
