//! Times runs of cells: assigns the first cell of a net again and again, and runs all that became invalid each time.
#![tactic(auto)]

mod reports;
mod rounds;
mod shapes;
mod stops;

use reports::report;
use std::alloc::Global;
use std::io::ErrorKind;
use std::process::ExitCode;
use std::{env, io};
use stops::Stop;

/// The words of the command line, the program's name first. Where one of them is no text there are none that could be read.
fn words_of(alloc: Global, args: io::Result<env::Args>) -> Result<Vec<String>, Stop> {
    match args {
        Ok(args) => Ok(args.collect(alloc)?),
        Err(e) if e.kind() == ErrorKind::OutOfMemory => Err(Stop::Memory),
        Err(_) => Err(Stop::Words),
    }
}

/// What the program prints.
fn text_of(alloc: Global, args: io::Result<env::Args>) -> Result<String, Stop> {
    let words = words_of(alloc, args)?;
    report(alloc, words.as_slice())
}

/// Prints what the last cell of each net holds behind the rounds, or in one line why nothing was run.
fn main(rt: HostRuntime) -> ExitCode {
    let written = match text_of(rt.alloc(), env::args(&rt)) {
        Ok(text) => print!(&rt; "{text}").map_err(|_| Stop::Output),
        Err(stop) => Err(stop),
    };
    match written {
        Ok(()) => ExitCode::SUCCESS,
        Err(stop) => {
            let _ = eprintln!(&rt; "cells_bench: {}", stop.line());
            ExitCode::from(stop.number())
        }
    }
}
