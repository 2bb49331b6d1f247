//! `pdc replay` and `pdc explain`: what plays the record of a life again, and what explains it. They read files and change nothing.
#![tactic(auto)]

mod comparing;
mod explaining;
mod plain;
mod printing;
mod replaying;
mod words;

use explaining::run_explain;
use replaying::run_replay;
use std::io;
use std::process::ExitCode;
use words::{RecordCommand, words_of};

/// The exit statuses.
const DONE: u8 = 0;

const REFUSED: u8 = 1;

const FAILED: u8 = 3;

/// Does what the words ask for, and answers the exit status.
fn run(rt: &HostRuntime, words: &[String]) -> io::Result<u8> {
    match words_of(rt.alloc(), words) {
        Ok(RecordCommand::Replay(asked)) => run_replay(rt, &asked),
        Ok(RecordCommand::Explain(asked)) => run_explain(rt, &asked),
        Err(error) => {
            error.print(rt)?;
            Ok(error.exit_code() as u8)
        }
    }
}

fn main(rt: HostRuntime) -> io::Result<ExitCode> {
    let alloc = rt.alloc();
    let words: Vec<String> = std::env::args(&rt)?.collect(alloc)?;
    let status = run(&rt, words.as_slice().get(1..).unwrap_or(&[]))?;
    Ok(ExitCode::from(status))
}
