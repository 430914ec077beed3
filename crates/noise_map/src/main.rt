//! `noisemap`: a noise mapper by ISO 9613-2, from JSON lines to CSV rows.
#![tactic(auto)]

mod lines;
mod make;
mod run;
#[cfg(test)]
mod test_faults;
#[cfg(test)]
mod test_gate;
#[cfg(test)]
mod tests;

use crate::run::status::{Report, Status};
use map_io::{OpenGate, StdSink, StdSource};
use std::env::{self, Env};
use std::io::{self, ErrorKind};
use std::process::ExitCode;

/// The words of the command line, if there is memory for them. Words that can't be read as text are no command line, as an
/// empty list is.
fn words_of(rt: &(impl Env + AllocGlobal)) -> Option<Vec<String>> {
    match env::args(rt) {
        Ok(words) => words.collect(rt.alloc()).ok(),
        Err(error) if error.kind() == ErrorKind::OutOfMemory => None,
        Err(_) => Some(Vec::new(rt.alloc())),
    }
}

/// What a run answers whose words no memory was left for.
fn without_words() -> Report {
    Report {
        status: Status::NoMemory,
        lines: 0,
        seat: None,
    }
}

/// The run over the words of the command line, standard input and standard output.
fn main(rt: HostRuntime) -> ExitCode {
    let report = match words_of(&rt) {
        Some(words) => {
            let words = words.as_slice();
            let mut input = StdSource::new(rt.reader());
            let mut out = StdSink::new(io::writer(&rt));
            run::run(&rt, rt.alloc(), words, &mut input, &mut out, &OpenGate)
        }
        None => without_words(),
    };
    if let Some(fault) = report.status.fault() {
        let _ = eprintln!(rt; "noisemap: {fault}");
    }
    ExitCode::from(report.status.exit_code())
}
