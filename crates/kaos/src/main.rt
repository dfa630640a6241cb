//! The program `kaos`: it hands its words, its standard input and its standard output to `run`, whose clauses say what is answered, and
//! ends with the status that `run` gives.
#![tactic(auto)]

use entailment::Engine;
use kaos_program::run;
use source_sink::{StdSink, StdSource};
use std::process::ExitCode;
use std::{env, io};

fn main(rt: HostRuntime) -> ExitCode {
    let mut words = Vec::new(rt.alloc());
    let Ok(given) = env::args(&rt) else {
        return ExitCode::from(8);
    };
    for word in given.skip(1) {
        if words.push(word).is_err() {
            return ExitCode::from(7);
        }
    }
    let mut source = StdSource::new(rt.reader());
    let mut sink = StdSink::new(io::writer(&rt));
    let outcome = run(rt.alloc(), &Engine, &words, &mut source, &mut sink);
    ExitCode::from(outcome.into_status().code())
}
