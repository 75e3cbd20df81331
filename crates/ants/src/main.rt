//! The program `ants`: a simulator of the ant world of the ICFP Programming Contest 2004.
//!
//! `run_to_exit` of `ant_commands` does all that the program does, over any shelf of files and any two sinks; `main`
//! passes it the real ones.
#![tactic(auto)]

use ant_base::{ErrSink, FileShelf, NoGate, OutSink};
use ant_commands::{exit_without_memory, run_to_exit};
use std::alloc::AllocError;
use std::env;
use std::io::{BufWriter, ErrorKind};
use std::process::ExitCode;

fn main(rt: HostRuntime) -> ExitCode {
    let alloc = rt.alloc();
    let mut err = ErrSink::new(rt.stderr());
    let args = match env::args(&rt) {
        Ok(args) => args,
        Err(error) => match error.kind() {
            ErrorKind::OutOfMemory => return exit_without_memory(&mut err),
            _ => return ExitCode::FAILURE,
        },
    };
    let words: Result<Vec<String>, AllocError> = args.skip(1).collect(alloc);
    let (Ok(words), Ok(output)) = (words, BufWriter::new(alloc, rt.stdout())) else {
        return exit_without_memory(&mut err);
    };
    let mut shelf = FileShelf::new(&rt);
    let mut out = OutSink::new(output);
    run_to_exit(&rt, alloc, &words, &mut shelf, &mut out, &mut err, &NoGate)
}
