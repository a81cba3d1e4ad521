//! `swiftq`: a deck of particles in on standard input, a stream of snapshots out on standard output.
#![tactic(auto)]

#[cfg(test)]
mod lattices;
#[cfg(test)]
mod pieces;
#[cfg(test)]
mod runs;
#[cfg(test)]
mod tests;

use qs_gate::NoGate;
use sph_edge::{StdSink, StdSource};
use sph_top::{exit_of, swiftq};
use std::io::ErrorKind;
use std::process::ExitCode;
use std::rt::Env;
use std::{env, io};

/// The exit status where want of memory leaves no words.
const NO_MEMORY: u8 = 6;

/// The exit status where there are no words for any other cause, as one that isn't UTF-8.
const NO_WORDS: u8 = 9;

fn main(rt: HostRuntime) -> ExitCode {
    let words = match words(&rt) {
        Ok(words) => words,
        Err(error) if error.kind() == ErrorKind::OutOfMemory => return ExitCode::from(NO_MEMORY),
        Err(_) => return ExitCode::from(NO_WORDS),
    };
    let mut source = StdSource::new(rt.stdin());
    let mut out = StdSink::new(rt.stdout());
    let mut err = StdSink::new(rt.stderr());
    let status = swiftq(
        &rt,
        rt.alloc(),
        words.as_slice(),
        &mut source,
        &mut out,
        &mut err,
        &NoGate,
    );
    ExitCode::from(exit_of(&status))
}

/// The words of the command line, the program's name first.
fn words<R: Env + AllocGlobal>(rt: &R) -> io::Result<Vec<String>> {
    Ok(env::args(rt)?.collect(rt.alloc())?)
}
