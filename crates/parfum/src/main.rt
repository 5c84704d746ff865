//! parfum: a two-dimensional triangle mesh adapter. All that it does is `pf_cmd::run`; this is its edge: the words of the
//! command line, the real files, standard output and the exit status.
#![tactic(auto)]

use pf_cmd::run;
use pf_driver::OpenGate;
use pf_shelf::{FileShelf, StdSink, WriteErr, say_all};
use std::alloc::AllocError;
use std::env;
use std::fs::Files;
use std::io::{ErrorKind, Print};
use std::process::ExitCode;
use std::thread::Threads;

/// The status where the system doesn't give the words as text. Nothing is said then.
const WORDS_REFUSED: u8 = 2;

const NO_MEMORY: &[u8] = b"parfum: out of memory\n";

fn main(rt: HostRuntime) -> ExitCode {
    let words = match env::args(&rt) {
        Ok(words) => words,
        Err(error) => {
            return match error.kind() {
                ErrorKind::OutOfMemory => end(&rt),
                _ => ExitCode::from(WORDS_REFUSED),
            };
        }
    };
    let Ok(words) = words.skip(1).collect::<Vec<String>>(rt.alloc()) else {
        return end(&rt);
    };
    match run_words(&rt, &words) {
        Ok(status) => ExitCode::from(status),
        Err(_) => end(&rt),
    }
}

// Runs the command that the words behind the program's name ask for.
fn run_words<R: AllocGlobal + Files + Print + Threads + Sync>(
    rt: &R,
    texts: &[String],
) -> Result<u8, AllocError> {
    let mut words = Vec::new(rt.alloc());
    for text in texts {
        words.push(text.as_str())?;
    }
    let mut shelf = FileShelf::new(rt);
    let mut out = StdSink::new(rt);
    Ok(run(rt, rt.alloc(), &words, &mut shelf, &mut out, &OpenGate))
}

// Says that memory ran out before a run could begin.
fn end(rt: &HostRuntime) -> ExitCode {
    match say_all(&mut StdSink::new(rt), NO_MEMORY) {
        Ok(()) => ExitCode::from(5),
        Err(WriteErr::Fault) => ExitCode::from(4),
    }
}
