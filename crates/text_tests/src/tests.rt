mod listings;
mod references;
mod token_values;
mod tokens;
mod triples;

use std::process::Abort;

fn assert_text(rt: &impl Abort, read: &str, wanted: &str) {
    assert_eq!(rt; read, wanted);
}
