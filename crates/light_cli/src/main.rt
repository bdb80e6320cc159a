//! The program: the commands over real files and standard output.
#![tactic(auto)]

mod ending;
mod file_store;
mod saving;
mod std_sink;
mod words;

use ending::{exit_code, tell};
use file_store::FileStore;
use light_top::{OpenGate, light};
use std::env;
use std::process::ExitCode;
use std_sink::StdSink;
use words::words_of;

fn main(rt: HostRuntime) -> ExitCode {
    let alloc = rt.alloc();
    let status = match words_of(alloc, env::args(&rt)) {
        Ok(words) => {
            let mut store = FileStore::new(&rt, alloc);
            let mut out = StdSink::new(rt.stdout());
            light(&rt, alloc, &words, &mut store, &mut out, &OpenGate)
        }
        Err(status) => status,
    };
    // Nothing more can be done where the line isn't told.
    let _ = tell(alloc, &mut StdSink::new(rt.stderr()), &status);
    exit_code(&status)
}

#[cfg(test)]
mod tests;
