//! The program: the words behind its name, and what lies outside for real. What it refused it says on standard error too.
#![tactic(auto)]

mod explain;
mod kept_files;

use chip_core::Bench;
use explain::explain;
use jt_base::{DiskFiles, StdSink};
use jtag_net::TcpNet;
use jtag_run::{Refusal, refuse, run};
use kept_files::KeptFiles;
use std::io::ErrorKind;
use std::process::ExitCode;
use std::rt::Env;
use std::{env, io};

/// Why the words behind the program's name can't be had: one of them isn't UTF-8, or there is no memory.
fn words_refusal(error: &io::Error) -> Refusal<'static> {
    if error.kind() == ErrorKind::InvalidData {
        Refusal::Words
    } else {
        Refusal::OutOfMemory
    }
}

/// The words behind the program's name.
fn words_given<R: Env + AllocGlobal>(rt: &R) -> io::Result<Vec<String>> {
    let mut words = Vec::new(rt.alloc());
    for word in env::args(rt)?.skip(1) {
        words.push(word)?;
    }
    Ok(words)
}

fn main(rt: HostRuntime) -> ExitCode {
    let mut out = StdSink::new(&rt);
    let status = match words_given(&rt) {
        Ok(words) => {
            let mut files = KeptFiles::new(DiskFiles::new(&rt));
            let mut net = TcpNet::new(&rt);
            let mut bench = Bench::blank();
            let status = run(
                rt.alloc(),
                &words,
                &mut files,
                &mut net,
                &mut out,
                &mut bench,
            );
            // What standard error does not take is lost.
            let _ = explain(&rt, rt.alloc(), &words, status, files.last());
            status
        }
        Err(error) => {
            let _ = eprintln!(rt; "the words were refused: {error}");
            refuse(&mut out, words_refusal(&error))
        }
    };
    ExitCode::from(status.code())
}
