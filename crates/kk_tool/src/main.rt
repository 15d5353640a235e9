//! The program `kokarv`: it compiles a Koka program to an image for RISC-V and runs it.
#![tactic(auto)]

use kk_base::{Bytes, Status};
use kk_host::{FileStore, StreamSink, StreamSource};
use kk_perform::kokarv;
use std::io::ErrorKind;
use std::process::ExitCode;
use std::{env, io};

/// The exit status where the words of the line cannot be had, for another cause than want of memory.
const NO_WORDS: u8 = 14;

fn main(rt: HostRuntime) -> ExitCode {
    let words = match words_of_line(&rt) {
        Ok(words) => words,
        Err(error) if error.kind() == ErrorKind::OutOfMemory => {
            return ExitCode::from(Status::NoMemory.number());
        }
        Err(_) => return ExitCode::from(NO_WORDS),
    };
    let status = kokarv(
        rt.alloc(),
        words.as_slice(),
        &mut FileStore::new(rt.alloc(), &rt),
        &mut StreamSource::new(rt.stdin()),
        &mut StreamSink::new(rt.stdout()),
        &mut StreamSink::new(rt.stderr()),
        &mut Bytes::new(rt.alloc()),
    );
    ExitCode::from(status.number())
}

/// The words of the line, the program's name first.
fn words_of_line(rt: &HostRuntime) -> io::Result<Vec<String>> {
    let mut words = Vec::new(rt.alloc());
    for word in env::args(rt)? {
        words.push(word)?;
    }
    Ok(words)
}
