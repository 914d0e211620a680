/// The text of a state file. No session so far saves a state, so it has the prefixes alone.
pub const STATE_TEXT: &str =
    "@prefix state: <http://lv2plug.in/ns/ext/state#> .\n@prefix fx: <urn:lv2fx:> .\n";
