//! The program: makes the real input, output and shelf, runs the command, and ends with the status' code.
#![tactic(auto)]

use rx_program::{FolderShelf, Status, StdSink, StdSource, run};
use std::env;
use std::io::ErrorKind;
use std::process::ExitCode;

// The words after the program's own name. One that is no text stands as an empty word, which no command has.
fn words_of(rt: &HostRuntime) -> Result<Vec<String>, Status> {
    let mut words = Vec::new(rt.alloc());
    match env::args(rt) {
        Ok(args) => {
            for word in args.skip(1) {
                if words.push(word).is_err() {
                    return Err(Status::NoMemory);
                }
            }
            Ok(words)
        }
        Err(error) => {
            if error.kind() == ErrorKind::OutOfMemory {
                return Err(Status::NoMemory);
            }
            Ok(words)
        }
    }
}

fn main(rt: HostRuntime) -> ExitCode {
    let words = match words_of(&rt) {
        Ok(words) => words,
        Err(status) => return ExitCode::from(status.code()),
    };
    let mut shelf = FolderShelf::make(&rt);
    let mut input = StdSource::make(rt.stdin());
    let mut out = StdSink::make(rt.stdout());
    let status = run(rt.alloc(), &words, &mut shelf, &mut input, &mut out);
    ExitCode::from(status.code())
}
