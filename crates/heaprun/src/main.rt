//! Runs the heap script of standard input, and writes what it prints to standard output, as
//! `heap_run::run` promises.
#![tactic(auto)]

use heap_run::{OpenGate, StdSink, StdSource, run, run_without_words};
use std::process::ExitCode;
use std::{env, io};

fn main(rt: HostRuntime) -> ExitCode {
    let mut sink = StdSink::new(rt.stdout());
    let ended = match words(&rt) {
        Ok(words) => {
            let mut source = StdSource::new(rt.reader());
            run(&rt, rt.alloc(), &words, &mut source, &mut sink, &OpenGate)
        }
        Err(_) => run_without_words(&mut sink),
    };
    ExitCode::from(ended.status)
}

/// The words after the program's name. Where one of them is no text there are none, and none are
/// refused.
fn words(rt: &HostRuntime) -> io::Result<Vec<String>> {
    let mut words = Vec::new(rt.alloc());
    match env::args(rt) {
        Ok(args) => {
            for word in args.skip(1) {
                words.push(word)?;
            }
        }
        Err(error) if error.kind() == io::ErrorKind::InvalidData => {}
        Err(error) => return Err(error),
    }
    Ok(words)
}
