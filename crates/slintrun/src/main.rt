//! The program `slintrun`: a source and a script in, replies out.
#![tactic(auto)]

use io_edge::{DiskFiles, StreamSink, StreamSource};
use slint_cli::{Status, Stop, slint_run};
use std::alloc::Global;
use std::io::ErrorKind;
use std::process::ExitCode;
use std::{env, io};

/// The words of the command line. Where one of them is no text there are none, since such words can't be read either.
fn words_of(alloc: Global, args: io::Result<env::Args>) -> Result<Vec<String>, Stop> {
    match args {
        Ok(args) => Ok(args.collect(alloc)?),
        Err(e) if e.kind() == ErrorKind::OutOfMemory => Err(Stop::Memory),
        Err(_) => Ok(Vec::new(alloc)),
    }
}

/// Runs the words over the files of the disk, with the script on standard input and the replies on standard output.
fn main(rt: HostRuntime) -> ExitCode {
    let alloc = rt.alloc();
    let status = match words_of(alloc, env::args(&rt)) {
        Err(stop) => Status::Stopped(stop),
        Ok(words) => {
            let mut script = StreamSource::new(rt.stdin());
            let mut out = StreamSink::new(rt.stdout());
            slint_run(
                alloc,
                words,
                &mut DiskFiles::new(&rt),
                &mut script,
                &mut out,
            )
        }
    };
    ExitCode::from(status.number())
}
