ghost use Rattle.std.specs.Prelude.{◌≡◌, length, IfOk};
ghost use Rattle.session_setup.specs.Newest as spec;

use lv_base::{NoMemory, Text};
use plugin_decl::{Version, version_of};
use triple_store::Store;

/// A bundle that declares a plug-in.
#[derive(Clone, Copy)]
pub(crate) struct Declared {
    /// The bundle's place among those of the session.
    pub(crate) place: usize,
    pub(crate) version: Version,
}

/// The bundle that counts for a plug-in: of those that declare it, the one with the greatest version, and of several with that
/// version the first. `None` exactly where no bundle declares it.
pub(crate) fn newest(bundles: &[Store], uri: &Text) -> Result<Option<Declared>, NoMemory>
    ensures { IfOk result (spec.Finds bundles.now uri.now (length bundles.now)) }
{
    let mut found = None;
    for (place, bundle) in bundles.iter().enumerate() {
        let version = version_of(bundle, uri)?;
        found = newer(found, place, version);
    }
    Ok(found)
}

/// The bundle that counts once the next one has been looked at, which stands at this place and declares this version, if any.
fn newer(found: Option<Declared>, place: usize, version: Option<Version>) -> Option<Declared>
    ensures { result ≡ spec.newer found place version }
{
    let Some(version) = version else {
        return found;
    };
    match found {
        Some(found) if !is_above(version, found.version) => Some(found),
        _ => Some(Declared { place, version }),
    }
}

/// Whether a version is greater than another: by its minor number, and then by its micro number.
fn is_above(version: Version, other: Version) -> bool
    ensures { result ≡ spec.is_above version other }
{
    version.minor > other.minor || (version.minor == other.minor && version.micro > other.micro)
}
