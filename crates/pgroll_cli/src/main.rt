//! The program: the words behind the journal's name, standard input and standard output.
#![tactic(auto)]

use pg_io::{StdSink, StdSource};
use pgroll_top::{End, close, top};
use std::alloc::Global;
use std::process::ExitCode;
use std::rt::Env;
use std::{env, io};

/// The words that `top` isn't given: the program's name and the journal's.
const NAMES: usize = 2;

// The words behind the journal's name.
fn words_of(rt: &(impl Env + AllocGlobal)) -> io::Result<Vec<String>> {
    let mut words = Vec::new(rt.alloc());
    for word in env::args(rt)?.skip(NAMES) {
        words.push(word)?;
    }
    Ok(words)
}

fn main(rt: HostRuntime) -> ExitCode {
    let alloc: Global = rt.alloc();
    let mut input = StdSource::new(rt.reader());
    let mut out = StdSink::new(io::writer(&rt));
    match words_of(&rt) {
        Ok(words) => ExitCode::from(top(alloc, &words, &mut input, &mut out)),
        Err(fault) if fault.kind() == io::ErrorKind::OutOfMemory => {
            ExitCode::from(close(&mut out, End::WantOfMemory))
        }
        // A word that isn't UTF-8: the words are of no form.
        Err(_) => ExitCode::from(top(alloc, &[], &mut input, &mut out)),
    }
}
