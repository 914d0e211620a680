ghost use Rattle.std.specs.Prelude.{◌≡◌, true, is_some, IfOk};
ghost use Rattle.iri_resolve.specs.Components.{scheme_of};

use lv_base::{Bytes, NoMemory, Text};
use state_file::{Saved, StateFault, read};
use std::alloc::Global;
use std::test::Fail;
use triple_store::Store;
use urid_map::Urids;

/// The prefixes of state files.
pub const PREFIXES: &str = "@prefix state: <http://lv2plug.in/ns/ext/state#> .
@prefix fx: <urn:lv2fx:> .
";

/// Values of properties: good ones, and one for each fault.
const VALUES: &str = "<#good> fx:type <urn:t> ; fx:flags 3 ; fx:bytes \"AA==\" .
<#empty> fx:type <urn:t> , \"u\" ; fx:flags \"+07\"@en ; fx:bytes \"\" .
<#typeless> fx:flags 3 ; fx:bytes \"AA==\" .
<#text-type> fx:type \"urn:t\" ; fx:flags 3 ; fx:bytes \"AA==\" .
<#two-types> fx:type <urn:t> , <urn:u> ; fx:flags 3 ; fx:bytes \"AA==\" .
<#flagless> fx:type <urn:t> ; fx:bytes \"AA==\" .
<#two-flags> fx:type <urn:t> ; fx:flags 3 , 7 ; fx:bytes \"AA==\" .
<#byteless> fx:type <urn:t> ; fx:flags 3 .
<#two-bytes> fx:type <urn:t> ; fx:flags 3 ; fx:bytes \"AA==\" , \"AQ==\" .
<#four> fx:type <urn:t> ; fx:flags 4 ; fx:bytes \"AA==\" .
<#minus> fx:type <urn:t> ; fx:flags -3 ; fx:bytes \"AA==\" .
<#decimal> fx:type <urn:t> ; fx:flags 3.0 ; fx:bytes \"AA==\" .
<#iri-flags> fx:type <urn:t> ; fx:flags <urn:3> ; fx:bytes \"AA==\" .
<#loose> fx:type <urn:t> ; fx:flags 3 ; fx:bytes \"AB==\" .
<#unpadded> fx:type <urn:t> ; fx:flags 3 ; fx:bytes \"AA\" .
<#iri-bytes> fx:type <urn:t> ; fx:flags 3 ; fx:bytes <urn:AAAA> .
<#four-loose> fx:type <urn:t> ; fx:flags 4 ; fx:bytes \"AB==\" .
";

fn base(alloc: Global) -> Result<Text, NoMemory>
    ensures { IfOk result (λ base. is_some (scheme_of base) ≡ true) }
{
    Text::from_str(alloc, "file:///state/0")
}

/// The triples of a document.
pub fn store_of(alloc: Global, text: &[u8]) -> Result<Store, Fail> {
    let base = base(alloc)?;
    let mut store = Store::new(alloc);
    match turtle_read::read(alloc, &base, text, &mut store) {
        Ok(_) => Ok(store),
        Err(_) => Err(Fail::new("no document")),
    }
}

/// What a document with these states is read as, over the values.
pub fn read_over(
    alloc: Global,
    states: &str,
    urids: &mut Urids,
) -> Result<Result<Vec<Saved>, StateFault>, Fail> {
    let mut text = Bytes::new(alloc);
    text.push_str(PREFIXES)?;
    text.push_str(VALUES)?;
    text.push_str(states)?;
    let store = store_of(alloc, text.as_slice())?;
    Ok(read(alloc, &store, urids))
}
