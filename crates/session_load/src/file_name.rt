ghost use Rattle.std.specs.Prelude.{◌≡◌, IfOk};
ghost use Rattle.percent_encoding.specs.Percent as percent;
ghost use Rattle.session_load.specs.Names.{manifest, is_segment, is_inside, inside, is_bare, file_named};

use lv_base::{NoMemory, Text, TextFault};
use percent_encoding::percent_decode;
use std::alloc::Global;
use std::marker::Model;

/// The name of a file within a bundle, such as `presets/warm.ttl`. Whatever it is, its path doesn't leave the bundle's folder: no
/// segment is empty, `.` or `..`. Contracts see it as the list of its bytes.
#[derive(Debug, PartialEq, Eq, Hash, Drop)]
pub(crate) struct FileName {
    text: Text,
}

impl Model for FileName {
    ghost use Rattle.std.specs.Prelude.{◌≡◌, List, ℕ, true};
    ghost use Rattle.session_load.specs.Names.{is_inside};

    ghost Value = { List ℕ };

    ghost view = { λ name. name.text };

    ghost invariant = { λ name. is_inside name.text ≡ true };

    ghost inverse = { λ text. record { text = text } };
}

impl FileName {
    /// The file that every bundle has.
    pub(crate) fn manifest(alloc: Global) -> Result<Self, NoMemory>
        ensures { IfOk result (λ name. name ≡ manifest) }
    {
        let text = Text::from_str(alloc, "manifest.ttl")?;
        Ok(FileName { text })
    }

    /// The file that an IRI names in the folder with this IRI, if it names one.
    pub(crate) fn of_iri(alloc: Global, folder: &Text, iri: &Text) -> Result<Option<Self>, NoMemory>
        ensures { IfOk result (λ name. name ≡ file_named folder.now iri.now) }
    {
        if !is_bare(iri) {
            return Ok(None);
        }
        match iri.as_bytes().strip_prefix(folder.as_bytes()) {
            Some(rest) => FileName::decoded(alloc, rest),
            None => Ok(None),
        }
    }

    /// The name that these bytes stand for, escapes decoded, if it is one.
    fn decoded(alloc: Global, escaped: &[u8]) -> Result<Option<Self>, NoMemory>
        ensures { IfOk result (λ name. name ≡ inside (percent.percent_decode escaped.now)) }
    {
        let bytes = percent_decode(escaped).into_cow(alloc)?;
        match Text::from_bytes(alloc, &bytes) {
            Ok(text) => Ok(FileName::from_text(text)),
            Err(TextFault::NotUtf8(_)) => Ok(None),
            Err(TextFault::NoMemory) => Err(NoMemory),
        }
    }

    fn from_text(text: Text) -> Option<Self>
        ensures { result ≡ inside text }
    {
        if is_inside(&text) {
            Some(FileName { text })
        } else {
            None
        }
    }

    pub(crate) fn as_str(&self) -> &str
        ensures { result.now ≡ self.now }
    {
        self.text.as_str()
    }
}

/// Whether a segment leads to a file or a folder in the folder before it.
fn is_segment(segment: &str) -> bool
    ensures { result ≡ is_segment segment.now }
{
    segment != "" && segment != "." && segment != ".."
}

/// Whether a name has no zero byte, and no segment that leads elsewhere.
fn is_inside(name: &Text) -> bool
    ensures { result ≡ is_inside name.now }
{
    !name.as_bytes().contains(&0) && name.as_str().split('/').all(is_segment)
}

/// Whether an IRI has neither a query nor a fragment.
fn is_bare(iri: &Text) -> bool
    ensures { result ≡ is_bare iri.now }
{
    let bytes = iri.as_bytes();
    !bytes.contains(&b'?') && !bytes.contains(&b'#')
}
