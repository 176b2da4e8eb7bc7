//! `nuz`: an optimizing SMT solver for scripts of SMT-LIB 2.6 on standard input.
#![tactic(auto)]

use nz_base::{Input, Memory, Output};
use nz_run::{MEMORY, USAGE, USAGE_LINE, run, words_of};
use std::process::ExitCode;

fn main(rt: HostRuntime) -> ExitCode {
    let status = match words_of(&rt, rt.alloc()) {
        Ok(Some(words)) => match Output::new(rt.alloc(), rt.stdout()) {
            Ok(mut output) => {
                let mut input = Input::new(rt.stdin());
                run(rt.alloc(), words.as_slice(), &mut input, &mut output).status
            }
            Err(Memory) => MEMORY,
        },
        Ok(None) => USAGE,
        Err(Memory) => MEMORY,
    };
    if status == USAGE {
        // The status says it too, so a standard error that takes no line changes nothing.
        let _ = eprintln!(rt; "{USAGE_LINE}");
    }
    ExitCode::from(status)
}
