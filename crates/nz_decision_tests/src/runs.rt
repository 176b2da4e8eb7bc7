//! Whole runs of the program over a script.
use nz_base::{Memory, PlainSink, PlainSource};
use nz_run::run;
use std::alloc::Global;

/// How many bytes the replies of a script may have.
const ROOM: usize = 4096;

/// What the program replies to a script.
pub fn replies_to(alloc: Global, script: &str) -> Result<PlainSink, Memory> {
    let mut words = Vec::new(alloc);
    for word in ["nuz", "solve"] {
        words.push(String::from_str(alloc, word)?)?;
    }
    let mut input = PlainSource::new(script.as_bytes().to_vec(alloc)?, 4096);
    let mut out = PlainSink::new(alloc, ROOM)?;
    run(alloc, words.as_slice(), &mut input, &mut out);
    Ok(out)
}
