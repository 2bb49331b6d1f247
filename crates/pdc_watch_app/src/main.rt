//! `pdc watch`: a page that shows a pair at work. It is a program of its own beside the pair, a consumer of the sessions of both
//! nodes and of the merger, and serves the page at 127.0.0.1.
#![tactic(auto)]

mod loading;
mod meter;
mod reader;
mod running;
mod site;
mod words;

use loading::{load, report_load};
use running::run;
use std::hash::RandomState;
use std::io;
use std::process::ExitCode;
use words::words_of;

/// The exit statuses: it does not end where all goes well.
const REFUSED: u8 = 1;

const FAILED: u8 = 3;

fn main(rt: HostRuntime) -> io::Result<ExitCode> {
    let alloc = rt.alloc();
    let words: Vec<String> = std::env::args(&rt)?.collect(alloc)?;
    let arguments = words.as_slice().get(1..).unwrap_or(&[]);
    let asked = match words_of(alloc, arguments) {
        Ok(asked) => asked,
        Err(error) => {
            error.print(&rt)?;
            return Ok(ExitCode::from(error.exit_code() as u8));
        }
    };
    let pair = match load(&rt, asked) {
        Ok(pair) => pair,
        Err((file, fault)) => {
            report_load(&rt, file, &fault)?;
            return Ok(ExitCode::from(REFUSED));
        }
    };
    let port = asked.port;
    if let Err(error) = run(&rt, RandomState::new(&rt)?, &pair, port) {
        eprintln!(rt; "device fault")?;
        eprintln!(rt; "pdc watch: port {port} of 127.0.0.1: {error}")?;
    }
    Ok(ExitCode::from(FAILED))
}
