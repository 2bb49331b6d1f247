//! `pdc check`: what is wrong in settings files, and what of several does not fit. It reads files, opens nothing and changes nothing. Asked
//! for `help settings`, it prints each key that may stand in such a file.
#![tactic(auto)]

mod checking;
mod describing;
mod printing;
mod words;

use checking::run_check;
use describing::{are_of_keys, print_keys};
use std::io;
use std::process::ExitCode;
use words::words_of;

/// Does what the words ask for, and answers the exit status.
fn run(rt: &HostRuntime, words: &[String]) -> io::Result<u8> {
    if are_of_keys(words) {
        print_keys(rt)?;
        return Ok(0);
    }
    match words_of(rt.alloc(), words) {
        Ok(asked) => run_check(rt, &asked.files, &asked.marks),
        Err(error) => {
            error.print(rt)?;
            Ok(error.exit_code() as u8)
        }
    }
}

fn main(rt: HostRuntime) -> io::Result<ExitCode> {
    let alloc = rt.alloc();
    let words: Vec<String> = std::env::args(&rt)?.collect(alloc)?;
    let status = run(&rt, words.as_slice().get(1..).unwrap_or(&[]))?;
    Ok(ExitCode::from(status))
}
